//! The command `run`: reads a text, takes the input, and executes.
ghost use Rattle.std.specs.Prelude.{◌≡◌};
ghost use Rattle.f95a_core.specs.Outside.{files, stream};
ghost use Rattle.f95a_core.specs.Running.{RunComesTo, status_of_end};

use crate::intake::{IntakeFault, take_all};
use crate::status::Status;
use a95_base::Memory;
use io_edge::{LoadFault, Shelf, Sink, Source};
use loop_machine::{End, Machine};
use loop_text::NoText;
use std::alloc::Global;

/// Reads a file as the text of a program, takes all of the input, and executes the program on it, for so many turns at most.
pub fn run<H: Shelf, S: Source, K: Sink>(
    alloc: Global,
    name: &str,
    turns: u128,
    shelf: &mut H,
    input: &mut S,
    out: &mut K,
) -> Status
    ensures comes { RunComesTo name.now turns
        (files (H.file shelf.old) (H.failed shelf.old) (H.faults shelf.old))
        (files (H.file shelf.new) (H.failed shelf.new) (H.faults shelf.new))
        (stream (S.left input.old) (S.faults input.old)) (stream (S.left input.new) (S.faults input.new))
        (stream (K.written out.old) (K.faults out.old)) (stream (K.written out.new) (K.faults out.new))
        (input.new ≡ input.old) (out.new ≡ out.old) result }
{
    let mut text = Vec::new(alloc);
    match shelf.load(alloc, name, &mut text) {
        Ok(()) => {}
        Err(LoadFault::Failed) => return Status::ReadFault,
        Err(LoadFault::Memory) => return Status::Memory,
    }
    let program = match loop_text::read(alloc, text.as_slice()) {
        Ok(program) => program,
        Err(NoText::At { line }) => return Status::TextRefused { line },
        Err(NoText::Memory) => return Status::Memory,
    };
    let bytes = match take_all(alloc, input) {
        Ok(bytes) => bytes,
        Err(IntakeFault::TooLong) => return Status::InputTooLong,
        Err(IntakeFault::Failed) => return Status::ReadFault,
        Err(IntakeFault::Memory) => return Status::Memory,
    };
    match Machine::new(alloc, program, bytes) {
        Ok(mut machine) => status_of(machine.run(turns, out)),
        Err(Memory) => Status::Memory,
    }
}

/// The status of the end of a run.
fn status_of(end: End) -> Status
    ensures { result ≡ status_of_end end }
{
    match end {
        End::Ended => Status::Done,
        End::Fault { kind, line } => Status::Fault { kind, line },
        End::Stuck { why } => Status::Stuck { why },
        End::TurnLimit => Status::TurnLimit,
        End::WriteFault => Status::WriteFault,
        End::Memory => Status::Memory,
    }
}
