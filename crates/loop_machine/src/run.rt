//! Steps in a row, and what they write.
ghost use Rattle.std.specs.Prelude.{◌≡◌, ◌≢◌, ◌≤◌, ◌∷◌, ◌++◌, [], Err, IfOk, OnOk, IsErrOf};
ghost use Rattle.std.specs.Io.KnownBytes.{Appends, Keeps};
ghost use Rattle.a95_base.specs.Record.{record_text};
ghost use Rattle.io_edge.specs.Causes.{Rose};
ghost use Rattle.io_edge.specs.Known.{AppendsPrefix};
ghost use Rattle.loop_rows.specs.Shown.{shown};
ghost use Rattle.loop_machine.specs.Running.{RunsTo};
ghost use Rattle.loop_machine.specs.Steps.{Passed, Advanced};

use crate::end::{End, halted};
use crate::moves::Move;
use crate::quick::{next_row, next_turn};
use crate::step::step;
use crate::sweep::sweep;
use a95_base::Line;
use io_edge::{PutFault, Sink};
use loop_rows::{Core, Routine, lines_at};
use std::alloc::{AllocError, Global};

fn with_line_feed(alloc: Global, text: &[u8]) -> Result<Vec<u8>, AllocError>
    ensures { IfOk result (λ line. line.items ≡ text.now ++ 10 ∷ []) }
{
    let mut line = Vec::from_slice(alloc, text)?;
    line.push(b'\n')?;
    Ok(line)
}

/// Writes the pending record and its line feed by one put, and begins a new one.
#[inline(never)]
fn write_record<K: Sink>(core: &mut Core, sink: &mut K) -> Result<(), PutFault>
    ensures emptied { OnOk result (core.new ≡ record core.old { pending = [] }) }
    ensures appended { OnOk result (Appends (K.written sink.old) (K.written sink.new) (record_text core.old.pending ++ 10 ∷ [])) }
    ensures cut_short { IsErrOf result PutFault.Failed →
        AppendsPrefix (K.written sink.old) (K.written sink.new) (record_text core.old.pending ++ 10 ∷ []) }
    ensures unwritten { IsErrOf result PutFault.Memory → Keeps (K.written sink.old) (K.written sink.new) }
    ensures later { K.faults sink.old ≤ K.faults sink.new }
    ensures counted { IsErrOf result PutFault.Failed → Rose (K.faults sink.old) (K.faults sink.new) }
    ensures ok { OnOk result (K.faults sink.new ≡ K.faults sink.old) }
    ensures memory { IsErrOf result PutFault.Memory → K.faults sink.new ≡ K.faults sink.old }
{
    let Ok(line) = with_line_feed(core.alloc, core.pending.bytes()) else {
        return Err(PutFault::Memory);
    };
    match sink.put(line.as_slice()) {
        Ok(()) => {
            core.pending.clear();
            Ok(())
        }
        Err(PutFault::Failed) => Err(PutFault::Failed),
        Err(PutFault::Memory) => Err(PutFault::Memory),
    }
}

/// One step, and the record that it writes, with so many turns left. Whether it began a turn, or the answer of the run.
#[tactic(auto, using(crate::proofs::Steps::silent_step, crate::proofs::Runs::ends_here, crate::proofs::Runs::halts_here, crate::proofs::Runs::waits_here, crate::proofs::Runs::cut_short, crate::proofs::Runs::unwritten))]
fn pass<K: Sink>(
    routines: &[Routine],
    core: &mut Core,
    left: u128,
    sink: &mut K,
) -> Result<bool, End>
    ensures passed { Passed routines.now (shown routines.now core.old) (shown routines.now core.new) left result
        (K.written sink.old) (K.written sink.new) }
    ensures later { K.faults sink.old ≤ K.faults sink.new }
    ensures counted { IsErrOf result End.WriteFault → Rose (K.faults sink.old) (K.faults sink.new) }
    ensures same { result ≢ Err End.WriteFault → K.faults sink.new ≡ K.faults sink.old }
{
    match step(routines, core, left > 0) {
        Move::Quiet => Ok(false),
        Move::Turn => Ok(true),
        Move::Record => match write_record(core, sink) {
            Ok(()) => Ok(false),
            Err(PutFault::Failed) => Err(End::WriteFault),
            Err(PutFault::Memory) => Err(End::Memory),
        },
        Move::Waits => Err(End::TurnLimit),
        Move::Ended => Err(End::Ended),
        Move::Fault => {
            let line = Line(core.active.line);
            Err(End::Fault {
                kind: core.fault,
                line,
            })
        }
        Move::Halt => Err(halted(core.halt)),
    }
}

/// Steps with so many turns left, up to the first turn that begins, or to the answer of the run.
#[inline(always)]
fn advance<K: Sink>(
    routines: &[Routine],
    core: &mut Core,
    left: u128,
    sink: &mut K,
) -> Result<(), End>
    ensures advanced { Advanced routines.now (shown routines.now core.old) (shown routines.now core.new) left result
        (K.written sink.old) (K.written sink.new) }
    ensures later { K.faults sink.old ≤ K.faults sink.new }
    ensures counted { IsErrOf result End.WriteFault → Rose (K.faults sink.old) (K.faults sink.new) }
    ensures same { result ≢ Err End.WriteFault → K.faults sink.new ≡ K.faults sink.old }
{
    let mut lines = lines_at(routines, core.active.routine);
    loop {
        if next_row(routines, lines, core) {
            continue;
        }
        if next_turn(routines, lines, core, left > 0) {
            return Ok(());
        }
        match pass(routines, core, left, sink) {
            Ok(true) => return Ok(()),
            Ok(false) => lines = lines_at(routines, core.active.routine),
            Err(end) => return Err(end),
        }
    }
}

/// So many turns as can be counted in 64 bits.
fn counted(turns: u128) -> u64
    ensures { result ≤ turns }
{
    match u64::try_from(turns) {
        Ok(turns) => turns,
        Err(_) => u64::MAX,
    }
}

/// Steps with so many turns.
#[inline(never)]
pub fn go<K: Sink>(routines: &[Routine], core: &mut Core, turns: u128, sink: &mut K) -> End
    ensures runs { RunsTo routines.now (shown routines.now core.old) turns result (shown routines.now core.new)
        (K.written sink.old) (K.written sink.new) }
    ensures later { K.faults sink.old ≤ K.faults sink.new }
    ensures counted { result ≡ End.WriteFault → Rose (K.faults sink.old) (K.faults sink.new) }
    ensures same { result ≢ End.WriteFault → K.faults sink.new ≡ K.faults sink.old }
{
    let mut left = turns;
    loop {
        match advance(routines, core, left, sink) {
            Ok(()) => {
                left -= 1;
                let used = sweep(routines, core, counted(left));
                left -= u128::from(used);
            }
            Err(end) => return end,
        }
    }
}
