//! What names mean, as the caller has it.
ghost use Rattle.std.specs.Prelude.{◌≡◌, IfOk};
ghost use Rattle.f95_tree.specs.Forms.{Word};
ghost use Rattle.names_types.specs.declared.sense.Sense.{Sense};

use a95_base::SharedBytes;
use names_types::Sense;
use std::alloc::{AllocError, Global};

/// What names mean at a place of a source.
pub trait Senses {
    ghost meant: { Self → Word → Sense };

    fn sense(&self, alloc: Global, name: &SharedBytes) -> Result<Sense, AllocError>
        ensures { IfOk result (λ s. s ≡ meant self.now name.now) };
}
