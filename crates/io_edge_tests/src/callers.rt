//! Callers through the bounds alone, in the forms that the layers above have: what they promise follows from the
//! clauses of the traits, at every type.
ghost use Rattle.std.specs.Prelude.{◌≡◌, ◌<◌, ◌≤◌, length, vec_len, IfOk, OnOk, IsErrOf, IfSome};
ghost use Rattle.std.specs.Io.KnownBytes.{Appends};
ghost use Rattle.io_edge.specs.Causes.{Rose};

use io_edge::{LoadFault, PutFault, Shelf, Sink, Source};
use std::alloc::Global;

#[derive(Clone, Copy, PartialEq, Eq)]
pub enum Outcome {
    Done,
    ReadFault,
    WriteFault,
    Memory,
}

/// Copies a file to a sink.
pub fn copy<H: Shelf, K: Sink>(alloc: Global, shelf: &mut H, name: &str, out: &mut K) -> Outcome
    ensures done { result ≡ Outcome.Done →
        IfSome (H.file shelf.old name.now) (λ bytes. Appends (K.written out.old) (K.written out.new) bytes) }
    ensures read { result ≡ Outcome.ReadFault → Rose (H.faults shelf.old) (H.faults shelf.new) }
    ensures name { result ≡ Outcome.ReadFault → H.failed shelf.new ≡ name.now }
    ensures unwritten { result ≡ Outcome.ReadFault → K.written out.new ≡ K.written out.old }
    ensures write { result ≡ Outcome.WriteFault → Rose (K.faults out.old) (K.faults out.new) }
    ensures kept { result ≡ Outcome.WriteFault → H.faults shelf.new ≡ H.faults shelf.old }
{
    let mut bytes = Vec::new(alloc);
    match shelf.load(alloc, name, &mut bytes) {
        Ok(()) => {}
        Err(LoadFault::Failed) => return Outcome::ReadFault,
        Err(LoadFault::Memory) => return Outcome::Memory,
    }
    match out.put(bytes.as_slice()) {
        Ok(()) => Outcome::Done,
        Err(PutFault::Failed) => Outcome::WriteFault,
        Err(PutFault::Memory) => Outcome::Memory,
    }
}

#[derive(Clone, Copy, PartialEq, Eq)]
pub enum Stopped {
    TooLong,
    ReadFault,
    Memory,
}

/// Takes the input up to its end, or until more than `limit` bytes have come.
pub fn take_all<S: Source>(alloc: Global, source: &mut S, limit: usize) -> Result<Vec<u8>, Stopped>
    ensures all { IfOk result (λ bytes. IfSome (S.left source.old) (λ left. bytes.items ≡ left)) }
    ensures within { IfOk result (λ bytes. vec_len bytes ≤ limit) }
    ensures long { IsErrOf result Stopped.TooLong → IfSome (S.left source.old) (λ left. limit < length left) }
    ensures fault { IsErrOf result Stopped.ReadFault → Rose (S.faults source.old) (S.faults source.new) }
    ensures ok { OnOk result (S.faults source.new ≡ S.faults source.old) }
{
    let mut all = Vec::new(alloc);
    let mut piece = [0; 4];
    while all.len() <= limit {
        let Ok(count) = source.take(&mut piece) else {
            return Err(Stopped::ReadFault);
        };
        if count == 0 {
            return Ok(all);
        }
        if all.extend_from_slice(&piece[..count]).is_err() {
            return Err(Stopped::Memory);
        }
    }
    Err(Stopped::TooLong)
}
