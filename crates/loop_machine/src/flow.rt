//! Lines that say where the program goes on. Each function does what its word in the definition says of a state whose
//! rest begins behind the line.
ghost use Rattle.std.specs.Prelude.{◌≡◌, ◌∷◌, ◌+◌, ◌<◌, ◌^◌, [], drop, OnSome, map, IfOk, OnOk, MatchOption, pos, int_lt, int_le};
ghost use Rattle.loop_tree.specs.State.{set_index, with_at};
ghost use Rattle.loop_tree.specs.Values.{number_at, atom_in, atom_of};
ghost use Rattle.loop_tree.specs.Machine.{leave, if_line, skip_choice, else_line, begin_loop, again, at_line, for_up_line};
ghost use Rattle.loop_tree.specs.Machine.{for_down_line, forever_line, close_line, break_line, continue_line, exits, exit_of};
ghost use Rattle.a95_base.specs.Lists.{rest_of};
ghost use Rattle.loop_tree.specs.Machine.{behind, first_exit, loop_end};
ghost use Rattle.loop_rows.specs.Shown.{lines_in, brace, shown, is_else, begins_choice};
ghost use Rattle.loop_machine.specs.Moves.{Did};

use crate::moves::{Move, halts};
use a95_base::Stack;
use loop_heap::Halt;
use loop_rows::{Core, OpenBrace, Routine, begins_other, exit, next, outer, past};
use loop_tree::Atom;
use loop_values::{Numbers, difference, sum};
use std::alloc::AllocError;

/// A call ends.
#[inline(never)]
#[tactic(auto, unfolding(loop_tree::specs::Machine::leave))]
pub fn leave(routines: &[Routine], core: &mut Core, may: bool) -> Move
    ensures { Did (leave (shown routines.now core.old)) may routines.now core.old core.new result }
{
    let _ = routines;
    let _ = may;
    match core.callers.pop() {
        None => Move::Ended,
        Some(caller) => {
            core.blocks.free_from(core.active.mark);
            core.active = caller;
            Move::Quiet
        }
    }
}

/// `if (A) {`
#[tactic(auto, unfolding(loop_tree::specs::Machine::if_line))]
pub fn choose(routines: &[Routine], core: &mut Core, test: i64, may: bool) -> Move
    ensures { Did (if_line (shown routines.now core.old) test) may routines.now core.old core.new result }
{
    let _ = may;
    if test != 0 {
        return match core.active.braces.push(OpenBrace::Choice) {
            Ok(()) => Move::Quiet,
            Err(_) => halts(core, Halt::Memory),
        };
    }
    match skip(routines, core) {
        Ok(()) => Move::Quiet,
        Err(_) => halts(core, Halt::Memory),
    }
}

#[inline(never)]
#[tactic(auto, using(loop_rows::proofs::Exits::skip_is))]
/// A test that fails leads to the other branch, or behind the closing brace.
fn skip(routines: &[Routine], core: &mut Core) -> Result<(), AllocError>
    ensures { OnOk result
        (shown routines.now core.new ≡ skip_choice (shown routines.now core.old)
        (exit_of (drop core.old.active.place (lines_in routines.now core.old.active.routine)))) }
{
    let place = exit(routines, core.active.routine, core.active.place);
    if begins_other(routines, core.active.routine, place) {
        core.active.braces.push(OpenBrace::Choice)?;
    }
    core.active.place = next(routines, core.active.routine, place);
    Ok(())
}

/// `} else {`
#[tactic(auto, unfolding(loop_tree::specs::Machine::else_line))]
pub fn pass_other(routines: &[Routine], core: &mut Core, may: bool) -> Move
    ensures { Did (else_line (shown routines.now core.old)) may routines.now core.old core.new result }
{
    let _ = may;
    core.active.place = past(routines, core.active.routine, core.active.place);
    core.active.braces.drop_top();
    Move::Quiet
}

/// `while (1) {`
#[tactic(auto, unfolding(loop_tree::specs::Machine::forever_line))]
pub fn begin_forever(routines: &[Routine], core: &mut Core, may: bool) -> Move
    ensures { Did (forever_line (shown routines.now core.old)) may routines.now core.old core.new result }
{
    let _ = routines;
    if !may {
        return Move::Waits;
    }
    let opened = OpenBrace::Forever {
        body: core.active.place,
    };
    match core.active.braces.push(opened) {
        Ok(()) => Move::Turn,
        Err(_) => halts(core, Halt::Memory),
    }
}

/// A loop variable that is set to a value stands below the bound then.
#[inline(always)]
#[tactic(auto, using(crate::proofs::Variables::set_same, crate::proofs::Variables::set_other))]
pub fn is_below(ints: &Numbers, indices: &Numbers, k: u32, bound: Atom, value: i64) -> bool
    ensures { result ≡ int_lt (number_at (with_at (pos 0) indices.now k value) k)
        (atom_in ints.now (with_at (pos 0) indices.now k value) bound) }
{
    let limit = match bound {
        Atom::Int(n) => ints.get(n),
        Atom::Loop(j) => { if j == k { value } else { indices.get(j) } }
        Atom::Number(z) => z,
    };
    value < limit
}

/// A loop variable that is set to a value is not negative then.
#[tactic(auto, using(crate::proofs::Variables::set_same))]
fn is_natural(indices: &Numbers, k: u32, value: i64) -> bool
    ensures { result ≡ int_le (pos 0) (number_at (with_at (pos 0) indices.now k value) k) }
{
    let _ = indices;
    let _ = k;
    0 <= value
}

/// A loop whose variable is set begins, or is passed over.
fn begin(
    routines: &[Routine],
    core: &mut Core,
    k: u32,
    value: i64,
    goes: bool,
    opened: OpenBrace,
    may: bool,
) -> Move
    ensures { Did (begin_loop (set_index (shown routines.now core.old) k value) goes
        (brace (lines_in routines.now core.old.active.routine) opened)) may routines.now core.old core.new result }
{
    if !goes {
        if core.active.indices.set(k, value).is_err() {
            return halts(core, Halt::Memory);
        }
        core.active.place = past(routines, core.active.routine, core.active.place);
        return Move::Quiet;
    }
    if !may {
        return Move::Waits;
    }
    if core.active.indices.set(k, value).is_err() {
        return halts(core, Halt::Memory);
    }
    match core.active.braces.push(opened) {
        Ok(()) => Move::Turn,
        Err(_) => halts(core, Halt::Memory),
    }
}

/// `for (kN = 0; kN < A; kN = kN + 1) {`
#[tactic(auto, unfolding(loop_tree::specs::Machine::for_up_line))]
pub fn begin_up(routines: &[Routine], core: &mut Core, k: u32, bound: Atom, may: bool) -> Move
    ensures { Did (for_up_line (shown routines.now core.old) k bound) may routines.now core.old core.new result }
{
    let goes = is_below(&core.active.ints, &core.active.indices, k, bound, 0);
    let opened = OpenBrace::Upward {
        k,
        bound,
        body: core.active.place,
    };
    begin(routines, core, k, 0, goes, opened, may)
}

/// `for (kN = A - 1; kN >= 0; kN = kN - 1) {`
#[tactic(auto, unfolding(loop_tree::specs::Machine::for_down_line))]
pub fn begin_down(routines: &[Routine], core: &mut Core, k: u32, bound: i64, may: bool) -> Move
    ensures { Did (for_down_line (shown routines.now core.old) k bound) may routines.now core.old core.new result }
{
    let value = difference(bound, 1);
    let goes = is_natural(&core.active.indices, k, value);
    let opened = OpenBrace::Downward {
        k,
        body: core.active.place,
    };
    begin(routines, core, k, value, goes, opened, may)
}

/// A loop whose variable is set begins its body again, or is left.
fn repeat(
    routines: &[Routine],
    core: &mut Core,
    k: u32,
    value: i64,
    goes: bool,
    body: usize,
    may: bool,
) -> Move
    ensures { Did (again (set_index (shown routines.now core.old) k value) goes
        (drop body (lines_in routines.now core.old.active.routine))
        (map (brace (lines_in routines.now core.old.active.routine)) (rest_of core.old.active.braces))) may routines.now core.old
        core.new result }
{
    let _ = routines;
    if !goes {
        if core.active.indices.set(k, value).is_err() {
            return halts(core, Halt::Memory);
        }
        core.active.braces.drop_top();
        return Move::Quiet;
    }
    if !may {
        return Move::Waits;
    }
    if core.active.indices.set(k, value).is_err() {
        return halts(core, Halt::Memory);
    }
    core.active.place = body;
    Move::Turn
}

/// `}`
#[tactic(auto, unfolding(loop_tree::specs::Machine::close_line))]
pub fn close(routines: &[Routine], core: &mut Core, may: bool) -> Move
    ensures { Did (close_line (shown routines.now core.old)
        (map (brace (lines_in routines.now core.old.active.routine)) core.old.active.braces)) may routines.now core.old core.new
        result }
{
    let Some(opened) = core.active.braces.top() else {
        return leave(routines, core, may);
    };
    match *opened {
        OpenBrace::Choice => {
            core.active.braces.drop_top();
            Move::Quiet
        }
        OpenBrace::Upward { k, bound, body } => {
            let value = sum(core.active.indices.get(k), 1);
            let goes = is_below(&core.active.ints, &core.active.indices, k, bound, value);
            repeat(routines, core, k, value, goes, body, may)
        }
        OpenBrace::Downward { k, body } => {
            let value = difference(core.active.indices.get(k), 1);
            let goes = is_natural(&core.active.indices, k, value);
            repeat(routines, core, k, value, goes, body, may)
        }
        OpenBrace::Forever { body } => {
            if !may {
                return Move::Waits;
            }
            core.active.place = body;
            Move::Turn
        }
    }
}

/// The innermost brace is that of a choice.
fn is_choice(braces: &Stack<OpenBrace>) -> bool
    ensures { result ≡ begins_choice braces.now }
{
    match braces.top() {
        Some(innermost) => matches!(innermost, OpenBrace::Choice),
        None => false,
    }
}

/// Takes the braces of choices away up to the innermost loop, and gives the place of the line that closes it.
fn loop_close(
    routines: &[Routine],
    routine: usize,
    place: usize,
    braces: &mut Stack<OpenBrace>,
) -> usize
    ensures lines { drop result (lines_in routines.now routine)
        ≡ (loop_end (map (brace (lines_in routines.now routine)) braces.old)
        (exits (drop place (lines_in routines.now routine)))).lines }
    ensures braces { map (brace (lines_in routines.now routine)) braces.new
        ≡ (loop_end (map (brace (lines_in routines.now routine)) braces.old)
        (exits (drop place (lines_in routines.now routine)))).braces }
{
    let mut closing = exit(routines, routine, place);
    while is_choice(braces) {
        braces.drop_top();
        closing = outer(routines, routine, closing);
    }
    closing
}

/// `break;`
#[tactic(auto, unfolding(loop_tree::specs::Machine::break_line))]
pub fn leave_loop(routines: &[Routine], core: &mut Core, may: bool) -> Move
    ensures { Did (break_line (shown routines.now core.old)
        (loop_end (shown routines.now core.old).now.braces (exits (shown routines.now core.old).now.rest))) may routines.now
        core.old core.new result }
{
    let _ = may;
    let closing = loop_close(
        routines,
        core.active.routine,
        core.active.place,
        &mut core.active.braces,
    );
    core.active.braces.drop_top();
    core.active.place = next(routines, core.active.routine, closing);
    Move::Quiet
}

/// `continue;`
#[tactic(auto, unfolding(loop_tree::specs::Machine::continue_line))]
pub fn next_iteration(routines: &[Routine], core: &mut Core, may: bool) -> Move
    ensures { Did (continue_line (shown routines.now core.old)
        (loop_end (shown routines.now core.old).now.braces (exits (shown routines.now core.old).now.rest))) may routines.now
        core.old core.new result }
{
    let _ = may;
    core.active.place = loop_close(
        routines,
        core.active.routine,
        core.active.place,
        &mut core.active.braces,
    );
    Move::Quiet
}

/// `f_at(N);`
#[tactic(auto, unfolding(loop_tree::specs::Machine::at_line))]
pub fn set_line(routines: &[Routine], core: &mut Core, line: u32, may: bool) -> Move
    ensures { Did (at_line (shown routines.now core.old) line) may routines.now core.old core.new result }
{
    let _ = routines;
    let _ = may;
    core.active.line = line;
    Move::Quiet
}
