//! Bytes to the typed unit.
ghost use Rattle.std.specs.Prelude.{◌≡◌, IfOk, IfErr, OnOk};
ghost use Rattle.rank_one.specs.Typed.{IsTyped};
ghost use Rattle.f95_source.specs.Sizes.{IsWithin};
ghost use Rattle.f95_source.specs.Source.{Reads, IsUnbroken, IsRefusedFor};

use f95_reader::{Refusal, read_source};
use rank_one::{Unit, unit_of};
use std::alloc::Global;

/// The unit that the bytes of a file read as. A refusal says the first phase in which they break a rule, in it the first line, and
/// on that the least rule (`specs/Source`).
pub fn read(alloc: Global, bytes: &[u8]) -> Result<Unit, Refusal>
    ensures reads { IfOk result (λ u. Reads bytes.now u) }
    ensures typed { IfOk result (λ u. IsTyped u) }
    ensures size { IfOk result (λ u. IsWithin u bytes.now) }
    ensures whole { OnOk result (IsUnbroken bytes.now) }
    ensures refused { IfErr result (λ e. IsRefusedFor e bytes.now) }
{
    // bytes are one source at most, which breaks no rule before names, and has no more terminals than twice the bytes
    f95_reader::one_source();
    f95_reader::breaks_nothing();
    f95_reader::terminals_within();
    let source = match read_source(alloc, bytes) {
        Ok(source) => source,
        Err(error) => return Err(error),
    };
    match unit_of(alloc, source) {
        Ok(Ok(unit)) => Ok(unit),
        Ok(Err(error)) => Err(Refusal::in_phase(4, error)),
        Err(error) => Err(Refusal::in_phase(3, error)),
    }
}
