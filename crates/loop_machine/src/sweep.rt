//! Turns of a loop whose body has rows of integers and cells alone. The rows are read once for all turns, with the
//! references of their blocks.
//! Where one of them doesn't lead on, or no turn follows, the step that any line takes finds out what comes then.
ghost use Rattle.std.specs.Prelude.{◌≡◌, ◌≤◌, ◌<◌, ◌+◌, ◌^◌, ◌+ℤ◌, pos, int_lt, [], ◌∷◌, length, slice_get, Some, Ok, IsTrue};
ghost use Rattle.std.specs.Prelude.{true, false, IfSome};
ghost use Rattle.std.specs.Int.{w64, int_wrap};
ghost use Rattle.loop_tree.specs.State.{Goes, with_at};
ghost use Rattle.loop_tree.specs.Values.{number_at, atom_in};
ghost use Rattle.a95_base.specs.Lists.{rest_of};
ghost use Rattle.loop_tree.specs.Machine.{row_line, step};
ghost use Rattle.loop_rows.specs.Shown.{shown, lines_in};
ghost use Rattle.loop_machine.specs.Steps.{ReachesSilently};
ghost use Rattle.loop_machine.specs.Plans.{atom_of_index, atom_of_operand, found_in, row_of, IsSettled, Plans, assembled, placed};

use crate::quick::operated;
use loop_heap::{Blocks, Link};
use loop_rows::{Core, OpenBrace, Routine, atom, is_straight, lines_at};
use loop_tree::{Atom, BlockRow, CodeLine, ControlRow, IntValue, Operator, Row};
use loop_values::{Numbers, sum, wrap};
use std::mem;

// With fewer turns than this, reading the rows would cost more than it spares.
const WORTH: i64 = 16;

/// A row of such a body. No tag has more than three cases, so that none is told by a jump through a table.
#[derive(Drop)]
pub enum Planned {
    Frequent(Frequent),
    Cell(CellRow),
    Plain(Plain),
}

/// The rows that loops over arrays have most often, where k is the loop's own variable. Those over a block have the number
/// of its variable as others have it.
#[derive(Drop)]
pub enum Frequent {
    /// `iN = bN[k];`
    Load(u32, u32, Link),
    /// `bN[k] = iN;`
    Store(u32, u32, Link),
    /// `iN = iN + iN;`
    Sum(u32, u32, u32),
}

/// A row that reads or sets a cell of the block of variable bN. It has N for its contract alone, and at its end the
/// reference that bN holds, and goes on to hold while such rows alone are obeyed.
#[derive(Drop)]
pub enum CellRow {
    /// `iN = bN[A];`
    Load(u32, u32, Index, Link),
    /// `bN[A] = A;`
    Store(u32, Index, Operand, Link),
}

/// A row that has no cell.
#[derive(Clone, Copy)]
pub enum Plain {
    /// `iN = ..;`
    Set(u32, Value),
    /// `f_at(N);` where that line is set already, so that nothing is to be done.
    At(u32),
}

/// An index: the loop's own variable, or another atom.
#[derive(Clone, Copy)]
pub enum Index {
    Own,
    Other(Atom),
}

/// An atom that is read: an integer variable, or another one.
#[derive(Clone, Copy)]
pub enum Operand {
    Int(u32),
    Other(Atom),
}

/// What such a row sets a variable to.
#[derive(Clone, Copy)]
pub enum Value {
    Same(Same),
    Operation(Operand, Operator, Operand),
    Sum(Operand, Operand),
}

/// A value that is kept as it is, or in 32 bits.
#[derive(Clone, Copy)]
pub enum Same {
    Atom(Operand),
    Wrap(Operand),
}

fn index_of(k: u32, a: Atom) -> Index
    ensures { atom_of_index k result ≡ a }
{
    match a {
        Atom::Loop(j) => if j == k { Index::Own } else { Index::Other(a) },
        Atom::Int(_) => Index::Other(a),
        Atom::Number(_) => Index::Other(a),
    }
}

fn operand_of(a: Atom) -> Operand
    ensures { atom_of_operand result ≡ a }
{
    match a {
        Atom::Int(n) => Operand::Int(n),
        Atom::Loop(_) => Operand::Other(a),
        Atom::Number(_) => Operand::Other(a),
    }
}

/// A row as it is kept, if it is such a one, and its block's variable holds a reference or its line is set.
fn plan_row(core: &Core, k: u32, row: &Row) -> Option<Planned>
    ensures { IfSome result (λ p. (row.now ≡ row_of k p) × IsSettled core.now.active.int_blocks core.now.active.line p) }
{
    match row {
        Row::Int(n, IntValue::Cell(m, at)) => {
            let Some(link) = core.active.int_blocks.get(*m) else {
                return None;
            };
            Some(match index_of(k, *at) {
                Index::Own => Planned::Frequent(Frequent::Load(*n, *m, link)),
                Index::Other(a) => Planned::Cell(CellRow::Load(*n, *m, Index::Other(a), link)),
            })
        }
        Row::Block(BlockRow::StoreInt(m, at, from)) => {
            let Some(link) = core.active.int_blocks.get(*m) else {
                return None;
            };
            Some(match (index_of(k, *at), operand_of(*from)) {
                (Index::Own, Operand::Int(i)) => Planned::Frequent(Frequent::Store(*m, i, link)),
                (at, from) => Planned::Cell(CellRow::Store(*m, at, from, link)),
            })
        }
        Row::Int(n, IntValue::Operation(a, Operator::Add, b)) => {
            Some(match (operand_of(*a), operand_of(*b)) {
                (Operand::Int(x), Operand::Int(y)) => Planned::Frequent(Frequent::Sum(*n, x, y)),
                (a, b) => Planned::Plain(Plain::Set(*n, Value::Sum(a, b))),
            })
        }
        Row::Int(n, IntValue::Operation(a, op, b)) => {
            Some(Planned::Plain(Plain::Set(
                *n,
                Value::Operation(operand_of(*a), *op, operand_of(*b)),
            )))
        }
        Row::Int(n, IntValue::Atom(a)) => {
            Some(Planned::Plain(Plain::Set(*n, Value::Same(Same::Atom(operand_of(*a))))))
        }
        Row::Int(n, IntValue::Wrap(a)) => {
            Some(Planned::Plain(Plain::Set(*n, Value::Same(Same::Wrap(operand_of(*a))))))
        }
        Row::Control(ControlRow::At(n)) => {
            if *n != core.active.line {
                return None;
            }
            Some(Planned::Plain(Plain::At(*n)))
        }
        _ => None,
    }
}

/// The rows of the body that begins at a place. None where it has other lines, or no memory is left for them.
fn plan(core: &Core, k: u32, lines: &[CodeLine], from: usize) -> Option<Vec<Planned>>
    ensures rows { IfSome result (λ rows. Plans core.now.active.int_blocks core.now.active.line k lines.now from rows.items) }
    ensures closes { IfSome result (λ rows. slice_get lines.now (from + length rows.items) ≡ Some CodeLine.Close) }
    ensures fits { IfSome result (λ rows. from + length rows.items < 2 ^ 64) }
{
    let mut rows = Vec::new(core.alloc);
    let mut place = from;
    while let Some(CodeLine::Row(row)) = lines.get(place) {
        let Some(found) = plan_row(core, k, row) else {
            return None;
        };
        if rows.push(found).is_err() {
            return None;
        }
        place += 1;
    }
    if let Some(CodeLine::Close) = lines.get(place) {
        return Some(rows);
    }
    None
}

/// The value of an atom, if it is a number or a dense variable.
#[inline(always)]
fn read(ints: &Numbers, indices: &Numbers, a: &Atom) -> Option<i64>
    ensures { IfSome result (λ value. value ≡ atom_in ints.now indices.now a.now) }
{
    match a {
        Atom::Int(n) => ints.get_dense(*n),
        Atom::Loop(j) => indices.get_dense(*j),
        Atom::Number(z) => Some(*z),
    }
}

/// The value of an index where the loop's own variable has this one.
#[inline(always)]
fn index_value(ints: &Numbers, indices: &Numbers, k: u32, own: i64, at: &Index) -> Option<i64>
    requires { own ≡ number_at indices.now k }
    ensures { IfSome result (λ value. value ≡ atom_in ints.now indices.now (atom_of_index k at.now)) }
{
    match at {
        Index::Own => Some(own),
        Index::Other(a) => read(ints, indices, a),
    }
}

#[inline(always)]
fn operand_value(ints: &Numbers, indices: &Numbers, a: &Operand) -> Option<i64>
    ensures { IfSome result (λ value. value ≡ atom_in ints.now indices.now (atom_of_operand a.now)) }
{
    match a {
        Operand::Int(n) => ints.get_dense(*n),
        Operand::Other(a) => read(ints, indices, a),
    }
}

/// What a variable is set to.
#[inline(always)]
#[tactic(auto, unfolding(loop_tree::specs::Values::operation))]
fn right_side(ints: &Numbers, indices: &Numbers, right: &Value) -> Option<i64>
    ensures { IfSome result (λ found. found_in ints.now indices.now right.now ≡ Ok found) }
{
    match right {
        Value::Sum(a, b) => {
            let x = operand_value(ints, indices, a)?;
            let y = operand_value(ints, indices, b)?;
            Some(sum(x, y))
        }
        Value::Operation(a, op, b) => {
            let x = operand_value(ints, indices, a)?;
            let y = operand_value(ints, indices, b)?;
            operated(x, *op, y)
        }
        Value::Same(Same::Atom(a)) => operand_value(ints, indices, a),
        Value::Same(Same::Wrap(a)) => {
            let x = operand_value(ints, indices, a)?;
            Some(wrap(x))
        }
    }
}

/// A row, in a state with these integers and blocks. It does the same whatever lines the state's rest has.
#[inline(always)]
#[tactic(auto, unfolding(loop_tree::specs::Machine::row_line, loop_tree::specs::Machine::int_line, loop_tree::specs::Machine::block_line, loop_tree::specs::Machine::change_line, loop_tree::specs::Machine::control_line, loop_tree::specs::Machine::at_line, loop_tree::specs::Values::int_value, loop_tree::specs::Values::operation))]
fn obey(
    routines: &[Routine],
    core: &Core,
    ints: &mut Numbers,
    blocks: &mut Blocks,
    row: &Planned,
    k: u32,
    own: i64,
) -> bool
    requires settled { IsSettled core.now.active.int_blocks core.now.active.line row.now }
    requires turn { own ≡ number_at core.now.active.indices k }
    ensures led { IsTrue result →
        row_line routines.now (shown routines.now (assembled core.now ints.old blocks.old)) (row_of k row.now)
        ≡ Goes false [] (shown routines.now (assembled core.now ints.new blocks.new)) }
    ensures ints { result ≡ false → ints.new ≡ ints.old }
    ensures blocks { result ≡ false → blocks.new ≡ blocks.old }
{
    let _ = routines;
    let indices = &core.active.indices;
    match row {
        Planned::Frequent(Frequent::Load(n, _, link)) => {
            let Some(found) = blocks.cell_at_hint(link, own) else {
                return false;
            };
            ints.set_dense(*n, found)
        }
        Planned::Frequent(Frequent::Store(_, i, link)) => {
            let Some(from) = ints.get_dense(*i) else {
                return false;
            };
            blocks.store_at_hint(link, own, from)
        }
        Planned::Frequent(Frequent::Sum(n, x, y)) => {
            let Some(x) = ints.get_dense(*x) else {
                return false;
            };
            let Some(y) = ints.get_dense(*y) else {
                return false;
            };
            ints.set_dense(*n, sum(x, y))
        }
        Planned::Cell(CellRow::Load(n, _, at, link)) => {
            let Some(at) = index_value(ints, indices, k, own, at) else {
                return false;
            };
            let Some(found) = blocks.cell_at_hint(link, at) else {
                return false;
            };
            ints.set_dense(*n, found)
        }
        Planned::Cell(CellRow::Store(_, at, from, link)) => {
            let Some(at) = index_value(ints, indices, k, own, at) else {
                return false;
            };
            let Some(from) = operand_value(ints, indices, from) else {
                return false;
            };
            blocks.store_at_hint(link, at, from)
        }
        Planned::Plain(Plain::At(_)) => true,
        Planned::Plain(Plain::Set(n, right)) => {
            let Some(found) = right_side(ints, indices, right) else {
                return false;
            };
            ints.set_dense(*n, found)
        }
    }
}

/// A loop variable that is set to a value stands below the bound then, which is read with no call.
#[inline(always)]
#[tactic(auto, using(crate::proofs::Variables::set_same, crate::proofs::Variables::set_other))]
fn is_below(ints: &Numbers, indices: &Numbers, k: u32, bound: Atom, value: i64) -> bool
    ensures { IsTrue result →
        int_lt (number_at (with_at (pos 0) indices.now k value) k) (atom_in ints.now (with_at (pos 0) indices.now k value) bound)
        ≡ true }
{
    let limit = match bound {
        Atom::Int(n) => ints.get_dense(n),
        Atom::Loop(j) => if j == k {
            Some(value)
        } else {
            indices.get_dense(j)
        },
        Atom::Number(z) => Some(z),
    };
    match limit {
        Some(limit) => value < limit,
        None => false,
    }
}

/// The brace at a place that closes the body of such a loop, in a state with these integers and blocks, where the loop's
/// variable is to have this value next. The body begins again if the value is below the bound.
#[inline(always)]
fn begin_again(
    routines: &[Routine],
    lines: &[CodeLine],
    core: &mut Core,
    ints: &Numbers,
    blocks: &Blocks,
    k: u32,
    bound: Atom,
    close: usize,
    body: usize,
    next: i64,
) -> bool
    requires here { lines.now ≡ lines_in routines.now core.old.active.routine }
    requires closes { slice_get lines.now close ≡ Some CodeLine.Close }
    requires innermost { core.old.active.braces ≡ OpenBrace.Upward k bound body ∷ rest_of core.old.active.braces }
    requires next { next ≡ int_wrap w64 (number_at core.old.active.indices k +ℤ pos 1) }
    ensures led { IsTrue result → step routines.now (shown routines.now (placed (assembled core.old ints.now blocks.now) close))
        ≡ Goes true [] (shown routines.now (placed (assembled core.new ints.now blocks.now) body)) }
    ensures begun { IsTrue result →
        core.new ≡ record core.old
        { active = record core.old.active { indices = with_at (pos 0) core.old.active.indices k next } } }
    ensures stays { result ≡ false → core.new ≡ core.old }
{
    let _ = routines;
    let _ = lines;
    let _ = blocks;
    let _ = close;
    let _ = body;
    if !is_below(ints, &core.active.indices, k, bound, next) {
        return false;
    }
    core.active.indices.set_dense(k, next)
}

/// At most so many turns more of the loop whose body begins here, and the rows behind the last of them, as far as they
/// lead on. Answers how many turns there were. Rows and turns are one loop, so that what it needs stays in registers in both.
#[inline(always)]
fn turns_apart(
    routines: &[Routine],
    lines: &[CodeLine],
    plan: &[Planned],
    core: &mut Core,
    ints: &mut Numbers,
    blocks: &mut Blocks,
    k: u32,
    bound: Atom,
    may: u64,
) -> u64
    requires here { lines.now ≡ lines_in routines.now core.old.active.routine }
    requires planned { Plans core.old.active.int_blocks core.old.active.line k lines.now core.old.active.place plan.now }
    requires fits { core.old.active.place + length plan.now < 2 ^ 64 }
    requires closes { slice_get lines.now (core.old.active.place + length plan.now) ≡ Some CodeLine.Close }
    requires innermost { core.old.active.braces ≡ OpenBrace.Upward k bound core.old.active.place ∷ rest_of core.old.active.braces }
    ensures within { result ≤ may }
    ensures led { ReachesSilently routines.now (shown routines.now (assembled core.old ints.old blocks.old)) result
        (shown routines.now (assembled core.new ints.new blocks.new)) }
{
    let body = core.active.place;
    let mut own = core.active.indices.get(k);
    let mut used = 0;
    let mut rest = plan;
    loop {
        if let Some((row, more)) = rest.split_first() {
            if !obey(routines, core, ints, blocks, row, k, own) {
                core.active.place = body + (plan.len() - rest.len());
                return used;
            }
            rest = more;
            continue;
        }
        if used == may {
            core.active.place = body + plan.len();
            return used;
        }
        let next = sum(own, 1);
        if !begin_again(
            routines,
            lines,
            core,
            ints,
            blocks,
            k,
            bound,
            body + plan.len(),
            body,
            next,
        ) {
            core.active.place = body + plan.len();
            return used;
        }
        own = next;
        used += 1;
        rest = plan;
    }
}

/// The same. Integers and blocks are taken out of the machine meanwhile, and stand in the function's own variables, so
/// that where their lists stand in memory isn't read anew for each access.
#[inline(never)]
fn turns(
    routines: &[Routine],
    lines: &[CodeLine],
    plan: &[Planned],
    core: &mut Core,
    k: u32,
    bound: Atom,
    may: u64,
) -> u64
    requires here { lines.now ≡ lines_in routines.now core.old.active.routine }
    requires planned { Plans core.old.active.int_blocks core.old.active.line k lines.now core.old.active.place plan.now }
    requires fits { core.old.active.place + length plan.now < 2 ^ 64 }
    requires closes { slice_get lines.now (core.old.active.place + length plan.now) ≡ Some CodeLine.Close }
    requires innermost { core.old.active.braces ≡ OpenBrace.Upward k bound core.old.active.place ∷ rest_of core.old.active.braces }
    ensures within { result ≤ may }
    ensures led { ReachesSilently routines.now (shown routines.now core.old) result (shown routines.now core.new) }
{
    let mut ints = mem::replace(&mut core.active.ints, Numbers::new(core.alloc));
    let mut blocks = mem::replace(&mut core.blocks, Blocks::new(core.alloc));
    let used = turns_apart(
        routines,
        lines,
        plan,
        core,
        &mut ints,
        &mut blocks,
        k,
        bound,
        may,
    );
    core.active.ints = ints;
    core.blocks = blocks;
    used
}

/// Turns of a loop that has begun not long ago and goes upward, at most so many, where its body is rows alone and it has
/// many turns. Answers how many there were; there may be more. In the first turn a row may set a variable that wasn't set
/// before, and isn't dense then, so the second turn is tried too.
#[inline(never)]
#[tactic(auto, using(crate::proofs::Steps::reaches_itself))]
pub fn sweep(routines: &[Routine], core: &mut Core, may: u64) -> u64
    ensures within { result ≤ may }
    ensures led { ReachesSilently routines.now (shown routines.now core.old) result (shown routines.now core.new) }
{
    let Some(OpenBrace::Upward { k, bound, body }) = core.active.braces.top() else {
        return 0;
    };
    let (k, bound, body) = (*k, *bound, *body);
    if core.active.place != body {
        return 0;
    }
    if core.active.indices.get(k) > 1 {
        return 0;
    }
    if !is_straight(routines, core.active.routine, body) {
        return 0;
    }
    if atom(&core.active.ints, &core.active.indices, bound) < WORTH {
        return 0;
    }
    let lines = lines_at(routines, core.active.routine);
    match plan(core, k, lines, body) {
        Some(rows) => turns(routines, lines, rows.as_slice(), core, k, bound, may),
        None => 0,
    }
}
