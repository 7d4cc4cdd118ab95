//! Calls of functions.
ghost use Rattle.loop_tree.specs.Machine.{call_line};
ghost use Rattle.loop_rows.specs.Shown.{shown};
ghost use Rattle.loop_machine.specs.Moves.{Did};

use crate::moves::{Move, halts};
use loop_heap::Halt;
use loop_rows::{Core, Routine, accepts, all_usable, entered};
use loop_tree::{Argument, StuckState};
use std::mem;

/// `fN(X, X);`
#[tactic(auto, using(loop_rows::proofs::Callees::called, loop_rows::proofs::Callees::not_accepted, loop_rows::proofs::Callees::not_usable))]
pub fn call(
    routines: &[Routine],
    core: &mut Core,
    n: u32,
    arguments: &[Argument],
    may: bool,
) -> Move
    ensures { Did (call_line routines.now (shown routines.now core.old) n arguments.now) may routines.now core.old core.new
        result }
{
    if !all_usable(routines, core, arguments) {
        return halts(core, Halt::Stuck(StuckState::NoBlock));
    }
    if !accepts(routines, n, arguments) {
        return halts(core, Halt::Stuck(StuckState::WrongCall));
    }
    if !may {
        return Move::Waits;
    }
    let Ok(callee) = entered(routines, core, n, arguments) else {
        return halts(core, Halt::Memory);
    };
    let caller = mem::replace(&mut core.active, callee);
    match core.callers.push(caller) {
        Ok(()) => Move::Turn,
        Err(_) => halts(core, Halt::Memory),
    }
}
