//! The command `build`: reads a source, and writes the text of its program.
ghost use Rattle.std.specs.Prelude.{◌≡◌, ◌≤◌};
ghost use Rattle.f95a_core.specs.Outside.{files, stream};
ghost use Rattle.f95a_core.specs.Building.{BuildComesTo};

use crate::lower::Lowering;
use crate::source::{Refusal, read};
use crate::status::Status;
use io_edge::{LoadFault, PutFault, Shelf, Sink};
use loop_writer::write;
use std::alloc::Global;

/// Compiles a file and writes the text of its program.
pub fn build<H: Shelf, K: Sink>(alloc: Global, name: &str, shelf: &mut H, out: &mut K) -> Status
    ensures comes { BuildComesTo name.now
        (files (H.file shelf.old) (H.failed shelf.old) (H.faults shelf.old))
        (files (H.file shelf.new) (H.failed shelf.new) (H.faults shelf.new))
        (stream (K.written out.old) (K.faults out.old)) (stream (K.written out.new) (K.faults out.new))
        (out.new ≡ out.old) result }
{
    let mut source = Vec::new(alloc);
    match shelf.load(alloc, name, &mut source) {
        Ok(()) => {}
        Err(LoadFault::Failed) => return Status::ReadFault,
        Err(LoadFault::Memory) => return Status::Memory,
    }
    match read(alloc, source.as_slice()) {
        Ok(unit) => match write(alloc, &mut Lowering::new(&unit), out) {
            Ok(()) => Status::Done,
            Err(PutFault::Failed) => Status::WriteFault,
            Err(PutFault::Memory) => Status::Memory,
        },
        Err(Refusal::Refused { phase, line, rule }) => Status::Refused { phase, line, rule },
        Err(Refusal::Memory) => Status::Memory,
    }
}
