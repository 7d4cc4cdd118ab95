//! Why a statement isn't read.
ghost use Rattle.std.specs.Prelude.{◌≡◌};
ghost use Rattle.rank_one.specs.declared.failure.Failure.TheVariants.{Memory};

use std::alloc::{AllocError, AllocFailed};

/// Why a statement isn't read.
#[derive(Clone, Copy)]
pub enum Failure {
    /// It isn't of the first form.
    OtherForm,
    /// An allocation was refused.
    Memory,
}

impl From<AllocError> for Failure {
    ghost from_gives = { λ _ e. e ≡ Memory };

    fn from(_: AllocError) -> Self {
        Failure::Memory
    }
}

impl<T: Drop> From<AllocFailed<T>> for Failure {
    ghost from_gives = { λ _ e. e ≡ Memory };

    fn from(_: AllocFailed<T>) -> Self {
        Failure::Memory
    }
}
