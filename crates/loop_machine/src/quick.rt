//! The lines that loops over arrays are made of, obeyed in a row: rows, and the brace that a turn ends at. Where one of
//! them does not lead on, nothing is done, and the step that any line takes finds out what it comes to. Tests are
//! written one by one, not as a match with many arms: a jump through a table costs more than all else that such a row
//! does.
ghost use Rattle.std.specs.Prelude.{◌≡◌, [], IfSome, IsTrue, true, false};
ghost use Rattle.loop_tree.specs.State.{Goes, set_int};
ghost use Rattle.loop_tree.specs.Values.{and_then, ints_at, int_cell, operation};
ghost use Rattle.loop_tree.specs.Machine.{given, change_line, store_int, int_line, row_line, step};
ghost use Rattle.loop_rows.specs.Shown.{shown, lines_in};

use crate::flow::is_below;
use loop_heap::Link;
use loop_rows::{Core, OpenBrace, Routine, atom};
use loop_tree::{Atom, BlockRow, CodeLine, IntValue, Operator, Row};
use loop_values::{difference, operation, product, sum, wrap};

/// `iN = ..;`, where the value was found.
#[inline(always)]
fn put(routines: &[Routine], core: &mut Core, n: u32, found: i64) -> bool
    ensures led { IsTrue result → set_int (shown routines.now core.old) n found ≡ shown routines.now core.new }
    ensures stays { result ≡ false → core.new ≡ core.old }
    ensures routine { core.new.active.routine ≡ core.old.active.routine }
{
    let _ = routines;
    core.active.ints.set(n, found).is_ok()
}

/// What an operator gives, if it gives something.
#[inline(always)]
#[tactic(auto, unfolding(loop_tree::specs::Values::operation))]
pub fn operated(x: i64, op: Operator, y: i64) -> Option<i64>
    ensures { IfSome result (λ found. operation op x y ≡ Ok found) }
{
    if let Operator::Add = op {
        return Some(sum(x, y));
    }
    if let Operator::Multiply = op {
        return Some(product(x, y));
    }
    if let Operator::Subtract = op {
        return Some(difference(x, y));
    }
    operated_else(x, op, y)
}

/// The same with any operator. It stands alone, since what an operator gives goes through memory.
#[inline(never)]
fn operated_else(x: i64, op: Operator, y: i64) -> Option<i64>
    ensures { IfSome result (λ found. operation op x y ≡ Ok found) }
{
    match operation(op, x, y) {
        Ok(found) => Some(found),
        Err(_) => None,
    }
}

/// `iN = A op A;`, where the atoms have these values.
#[inline(always)]
fn operate(routines: &[Routine], core: &mut Core, n: u32, x: i64, op: Operator, y: i64) -> bool
    ensures led { IsTrue result → given (operation op x y) (set_int (shown routines.now core.old) n)
        ≡ Goes false [] (shown routines.now core.new) }
    ensures stays { result ≡ false → core.new ≡ core.old }
    ensures routine { core.new.active.routine ≡ core.old.active.routine }
{
    match operated(x, op, y) {
        Some(found) => put(routines, core, n, found),
        None => false,
    }
}

/// `iN = bN[A];`, where the reference and the index have these values.
#[inline(always)]
fn load(routines: &[Routine], core: &mut Core, n: u32, link: Option<Link>, at: i64) -> bool
    ensures led { IsTrue result →
        given (and_then (ints_at (shown routines.now core.old).blocks link) (λ cells. int_cell cells at))
        (set_int (shown routines.now core.old) n) ≡ Goes false [] (shown routines.now core.new) }
    ensures stays { result ≡ false → core.new ≡ core.old }
    ensures routine { core.new.active.routine ≡ core.old.active.routine }
{
    match core.blocks.int_cell(link, at) {
        Ok(found) => put(routines, core, n, found),
        Err(_) => false,
    }
}

/// `bN[A] = A;`, where the reference and the atoms have these values.
#[inline(always)]
#[tactic(auto, unfolding(loop_tree::specs::Machine::change_line))]
fn store(routines: &[Routine], core: &mut Core, link: Option<Link>, at: i64, value: i64) -> bool
    ensures led { IsTrue result → change_line (shown routines.now core.old) link (store_int at value)
        ≡ Goes false [] (shown routines.now core.new) }
    ensures stays { result ≡ false → core.new ≡ core.old }
    ensures routine { core.new.active.routine ≡ core.old.active.routine }
{
    let _ = routines;
    core.blocks.store_int(link, at, value).is_ok()
}

/// `iN = A;` and `iN = f_wrap(A);`, no other row.
#[inline(never)]
#[tactic(auto, unfolding(loop_tree::specs::Machine::int_line, loop_tree::specs::Values::int_value))]
fn assign(routines: &[Routine], core: &mut Core, n: u32, value: &IntValue) -> bool
    ensures led { IsTrue result → int_line (shown routines.now core.old) n value.now
        ≡ Goes false [] (shown routines.now core.new) }
    ensures stays { result ≡ false → core.new ≡ core.old }
    ensures routine { core.new.active.routine ≡ core.old.active.routine }
{
    if let IntValue::Wrap(a) = value {
        let found = wrap(atom(&core.active.ints, &core.active.indices, *a));
        return put(routines, core, n, found);
    }
    if let IntValue::Atom(a) = value {
        let found = atom(&core.active.ints, &core.active.indices, *a);
        return put(routines, core, n, found);
    }
    false
}

/// A row, in a state whose rest begins behind it.
#[inline(always)]
#[tactic(auto, unfolding(loop_tree::specs::Machine::row_line, loop_tree::specs::Machine::int_line, loop_tree::specs::Machine::block_line, loop_tree::specs::Values::int_value))]
fn row(routines: &[Routine], core: &mut Core, row: &Row) -> bool
    ensures led { IsTrue result → row_line routines.now (shown routines.now core.old) row.now
        ≡ Goes false [] (shown routines.now core.new) }
    ensures stays { result ≡ false → core.new ≡ core.old }
    ensures routine { core.new.active.routine ≡ core.old.active.routine }
{
    if let Row::Int(n, value) = row {
        if let IntValue::Operation(a, op, b) = value {
            let x = atom(&core.active.ints, &core.active.indices, *a);
            let y = atom(&core.active.ints, &core.active.indices, *b);
            return operate(routines, core, *n, x, *op, y);
        }
        if let IntValue::Cell(m, a) = value {
            let at = atom(&core.active.ints, &core.active.indices, *a);
            let link = core.active.int_blocks.get(*m);
            return load(routines, core, *n, link, at);
        }
        return assign(routines, core, *n, value);
    }
    if let Row::Block(BlockRow::StoreInt(n, i, a)) = row {
        let at = atom(&core.active.ints, &core.active.indices, *i);
        let value = atom(&core.active.ints, &core.active.indices, *a);
        let link = core.active.int_blocks.get(*n);
        return store(routines, core, link, at, value);
    }
    false
}

/// The row that comes next, if it is such a one. `lines` are those of the function that is active.
#[inline(always)]
#[tactic(auto, unfolding(loop_tree::specs::Machine::step, loop_tree::specs::Machine::step_at, loop_tree::specs::Machine::do_line), using(loop_rows::proofs::Exits::drop_some))]
pub fn next_row(routines: &[Routine], lines: &[CodeLine], core: &mut Core) -> bool
    requires { lines.now ≡ lines_in routines.now core.old.active.routine }
    ensures led { IsTrue result → step routines.now (shown routines.now core.old) ≡ Goes false [] (shown routines.now core.new) }
    ensures stays { result ≡ false → core.new ≡ core.old }
    ensures routine { core.new.active.routine ≡ core.old.active.routine }
{
    let place = core.active.place;
    let Some(CodeLine::Row(found)) = lines.get(place) else {
        return false;
    };
    core.active.place = place + 1;
    if row(routines, core, found) {
        return true;
    }
    core.active.place = place;
    false
}

/// The next turn of a loop that goes upward, if it may begin, the line that comes next closes such a loop, and its body
/// is begun again.
#[inline(always)]
#[tactic(auto, unfolding(loop_tree::specs::Machine::step, loop_tree::specs::Machine::step_at, loop_tree::specs::Machine::do_line, loop_tree::specs::Machine::close_line), using(loop_rows::proofs::Exits::drop_some))]
pub fn next_turn(routines: &[Routine], lines: &[CodeLine], core: &mut Core, may: bool) -> bool
    requires { lines.now ≡ lines_in routines.now core.old.active.routine }
    ensures led { IsTrue result → (may ≡ true) ×
        (step routines.now (shown routines.now core.old) ≡ Goes true [] (shown routines.now core.new)) }
    ensures stays { result ≡ false → core.new ≡ core.old }
{
    let _ = routines;
    if !may {
        return false;
    }
    let Some(CodeLine::Close) = lines.get(core.active.place) else {
        return false;
    };
    let Some(OpenBrace::Upward { k, bound, body }) = core.active.braces.top() else {
        return false;
    };
    let (k, bound, body) = (*k, *bound, *body);
    let value = sum(core.active.indices.get(k), 1);
    if !is_below(&core.active.ints, &core.active.indices, k, bound, value) {
        return false;
    }
    if core.active.indices.set(k, value).is_err() {
        return false;
    }
    core.active.place = body;
    true
}
