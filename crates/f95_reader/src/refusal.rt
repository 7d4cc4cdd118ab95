//! Why a source is refused.
ghost use Rattle.std.specs.Prelude.{◌≡◌};
ghost use Rattle.f95_reader.specs.Phases.{in_phase};

use a95_base::{Line, PhaseError, Rule};
use std::alloc::AllocError;
use thiserror::Error;

/// Why a source is refused.
#[derive(Clone, Copy, Debug, PartialEq, Eq, Error)]
pub enum Refusal {
    /// The first phase in which it breaks a rule, and in it the first line, and on that the least rule.
    #[error("phase {phase}, line {}, rule P{}", .line.0, .rule.0)]
    Refused { phase: u8, line: Line, rule: Rule },
    #[error("no memory")]
    Memory,
}

impl Refusal {
    /// What a phase answers, with its number.
    pub fn in_phase(phase: u8, error: PhaseError) -> Refusal
        ensures { result ≡ in_phase phase error }
    {
        match error {
            PhaseError::Broken { line, rule } => Refusal::Refused { phase, line, rule },
            PhaseError::Memory => Refusal::Memory,
        }
    }
}
