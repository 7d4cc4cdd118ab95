//! Lines and rules, and what a reader's phase answers where it gives no result.
ghost use Rattle.std.specs.Prelude.{◌≡◌};
ghost use Rattle.a95_base.specs.declared.source.PhaseError.TheVariants.{Memory};

use std::alloc::{AllocError, AllocFailed};
use thiserror::Error;

/// An allocation was refused.
#[derive(Clone, Copy, Debug, PartialEq, Eq)]
pub struct Memory;

/// A line of a source or of a LoopC text, counted from 1. A fault that no statement has is at line 0.
#[derive(Clone, Copy, Debug, PartialEq, Eq, PartialOrd, Ord)]
pub struct Line(pub u32);

/// A rule of refusal, by the number that the product prints: 19 is P19. `src/rules.rt` has the rules by name.
#[derive(Clone, Copy, Debug, PartialEq, Eq, PartialOrd, Ord)]
pub struct Rule(pub u8);

/// What a phase of the reader answers where it gives no result.
#[derive(Clone, Copy, Debug, PartialEq, Eq, Error)]
pub enum PhaseError {
    /// The least line, and on it the least rule, that the source breaks in this phase.
    #[error("line {}, rule P{}", .line.0, .rule.0)]
    Broken { line: Line, rule: Rule },
    #[error("no memory")]
    Memory,
}

impl From<Memory> for PhaseError {
    ghost from_gives = { λ _ e. e ≡ Memory };

    fn from(_: Memory) -> Self {
        PhaseError::Memory
    }
}

impl From<AllocError> for PhaseError {
    ghost from_gives = { λ _ e. e ≡ Memory };

    fn from(_: AllocError) -> Self {
        PhaseError::Memory
    }
}

impl<T: Drop> From<AllocFailed<T>> for PhaseError {
    ghost from_gives = { λ _ e. e ≡ Memory };

    fn from(_: AllocFailed<T>) -> Self {
        PhaseError::Memory
    }
}

impl From<AllocError> for Memory {
    fn from(_: AllocError) -> Self {
        Memory
    }
}

impl<T: Drop> From<AllocFailed<T>> for Memory {
    fn from(_: AllocFailed<T>) -> Self {
        Memory
    }
}
