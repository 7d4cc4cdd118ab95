//! References to blocks.
ghost use Rattle.std.specs.Prelude.{◌≡◌};

use std::marker::Model;

/// What a reference holds: the number of a block, and where the block stood when it was made. Contracts see the number.
#[derive(Debug, Drop)]
pub struct Link {
    number: u64,
    hint: usize,
}

impl Model for Link {
    ghost use Rattle.std.specs.Prelude.{ℕ};
    ghost use Rattle.std.specs.Coded.{coded_ℕ};

    ghost Value = { ℕ };

    ghost coded = { coded_ℕ };

    ghost view = { λ link. link.number };
}

impl Link {
    pub(crate) fn new(number: u64, hint: usize) -> Link
        ensures { result ≡ number }
    {
        Link { number, hint }
    }

    /// The number of the block.
    pub fn number(&self) -> u64
        ensures { result ≡ self.now }
    {
        self.number
    }

    pub(crate) fn hint(&self) -> usize {
        self.hint
    }

    /// The same reference once more.
    pub fn again(&self) -> Link
        ensures { result ≡ self.now }
    {
        Link {
            number: self.number,
            hint: self.hint,
        }
    }
}
