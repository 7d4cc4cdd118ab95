//! The input, taken to its end.
ghost use Rattle.std.specs.Prelude.{◌+◌, ◌≤◌, MatchResult};
ghost use Rattle.f95a_core.specs.Intake.{input_limit, TakesAtMost, TakenAll, IntakeFails};

use io_edge::Source;
use std::alloc::{AllocError, Global};

/// The most bytes that an input may have.
const INPUT_LIMIT: usize = 1 << 24;

/// The most bytes that are asked for at once.
const PIECE: usize = 1 << 16;

/// Why an input was not taken to its end.
#[derive(Clone, Copy, Debug, PartialEq, Eq)]
pub enum IntakeFault {
    TooLong,
    Failed,
    Memory,
}

/// All the bytes of an input that has no more than `INPUT_LIMIT`. One byte more is taken at most.
pub fn take_all<S: Source>(alloc: Global, input: &mut S) -> Result<Vec<u8>, IntakeFault>
    ensures taken { MatchResult result (λ bytes. TakenAll (S.left input.old) (S.left input.new) bytes.items)
        (λ fault. IntakeFails fault (S.left input.old) (S.left input.new) (S.faults input.old) (S.faults input.new)) }
    ensures front { TakesAtMost (input_limit + 1) (S.left input.old) (S.left input.new) }
    ensures later { S.faults input.old ≤ S.faults input.new }
{
    let mut bytes = Vec::new(alloc);
    let mut piece = [0_u8; PIECE];
    while bytes.len() <= INPUT_LIMIT {
        let room = PIECE.min(INPUT_LIMIT + 1 - bytes.len());
        let count = match input.take(&mut piece[..room]) {
            Ok(0) => return Ok(bytes),
            Ok(count) => count,
            Err(_) => return Err(IntakeFault::Failed),
        };
        if bytes.extend_from_slice(&piece[..count]).is_err() {
            return Err(IntakeFault::Memory);
        }
    }
    Err(IntakeFault::TooLong)
}
