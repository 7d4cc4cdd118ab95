//! What names words, and lists of it.
ghost use Rattle.std.specs.Prelude.{◌≡◌, ◌++◌, List, OnOk};
ghost use Rattle.std.specs.List.{flat_map};
ghost use Rattle.f95_tree.specs.Forms.{Word};

use a95_base::SharedBytes;
use std::alloc::AllocError;

/// A part of a source that names words.
pub trait Named {
    ghost named: { Self → List Word };

    /// The names, at the end of the list.
    fn add_names(&self, names: &mut Vec<SharedBytes>) -> Result<(), AllocError>
        ensures { OnOk result (names.new.items ≡ names.old.items ++ named self.now) };
}

/// The names of each part.
pub fn add_each<T: Named>(parts: &[T], names: &mut Vec<SharedBytes>) -> Result<(), AllocError>
    ensures { OnOk result (names.new.items ≡ names.old.items ++ flat_map T.named parts.now) }
{
    for part in parts {
        part.add_names(names)?;
    }
    Ok(())
}
