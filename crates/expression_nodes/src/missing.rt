//! What is answered where nothing is made.
ghost use Rattle.std.specs.Prelude.{◌≡◌};
ghost use Rattle.expression_nodes.specs.declared.missing.Missing.TheVariants as missing;

use a95_base::Rule;
use std::alloc::{AllocError, AllocFailed};

/// Why a piece of a source has no typed form.
#[derive(Clone, Copy)]
pub enum Missing {
    /// The least rule on types and shapes that it breaks.
    Broken(Rule),
    /// It has no type, and breaks no rule of this phase.
    Untyped,
    Memory,
}

impl From<AllocError> for Missing {
    ghost from_gives = { λ _ e. e ≡ missing.Memory };

    fn from(_: AllocError) -> Self {
        Missing::Memory
    }
}

impl<T: Drop> From<AllocFailed<T>> for Missing {
    ghost from_gives = { λ _ e. e ≡ missing.Memory };

    fn from(_: AllocFailed<T>) -> Self {
        Missing::Memory
    }
}
