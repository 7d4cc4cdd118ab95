//! The names of a scope: a list, and a map from each name to its first place.
ghost use Rattle.std.specs.Prelude.{◌≡◌, [], ◌∷◌, ◌++◌, length, nat_eq, slice_get, OnOk, OnErr, option_map};
ghost use Rattle.std.specs.List.{list_any};
ghost use Rattle.std.specs.Cmp.Lexicographic.{pointwise};
ghost use Rattle.name_table.specs.Places.{first_place, IsHeld, word_of};

use a95_base::Bytes;
use indexmap::IndexMap;
use std::alloc::{AllocError, Global};
use std::marker::Model;

/// Contracts see the names in their order, in which a name may stand more than once.
#[derive(Drop)]
pub struct NameTable {
    names: Vec<Bytes>,
    places: IndexMap<Vec<u8>, usize>,
}

impl Model for NameTable {
    ghost use Rattle.std.specs.Prelude.{List, ℕ};
    ghost use Rattle.std.specs.Coded.{coded_list, coded_ℕ};
    ghost use Rattle.name_table.specs.Places.{IsHeld, word_of};

    ghost Value = { List (List ℕ) };

    ghost coded = { coded_list (coded_list coded_ℕ) };

    ghost view = { λ t. t.names.items };

    ghost invariant = { λ t. IsHeld word_of t.places.entries t.names.items };
}

impl NameTable {
    /// No names. Takes no memory.
    pub fn new(alloc: Global) -> NameTable
        ensures { result ≡ [] }
    {
        NameTable {
            names: Vec::new(alloc),
            places: IndexMap::new(alloc),
        }
    }

    pub fn len(&self) -> usize
        ensures { result ≡ length self.now }
    {
        self.names.len()
    }

    /// The name at this place.
    pub fn get(&self, place: usize) -> Option<&Bytes>
        ensures { option_map (λ n. n.now) result ≡ slice_get self.now place }
    {
        self.names.get(place)
    }

    /// The first place of a name.
    pub fn first_place(&self, name: &[u8]) -> Option<usize>
        ensures { result ≡ first_place name.now self.now }
    {
        self.places.get(name).copied()
    }

    /// Whether the name stands there.
    #[tactic(auto, using(crate::proofs::Held::found_is_any))]
    pub fn contains(&self, name: &[u8]) -> bool
        ensures { result ≡ list_any (pointwise nat_eq name.now) self.now }
    {
        self.first_place(name).is_some()
    }

    /// One more name, behind the others. Where memory is wanting the names stay as they are.
    pub fn push(&mut self, alloc: Global, name: &[u8]) -> Result<(), AllocError>
        ensures added { OnOk result (self.new ≡ self.old ++ name.now ∷ []) }
        ensures unchanged { OnErr result (self.new ≡ self.old) }
    {
        let copy = Bytes::from_slice(alloc, name)?;
        self.names.reserve(1)?;
        hold(alloc, &mut self.places, self.names.as_slice(), name)?;
        self.names.push(copy)?;
        Ok(())
    }
}

/// The first places of these names, and of one more behind them.
#[tactic(auto, using(crate::proofs::Held::held_again))]
fn hold(
    alloc: Global,
    places: &mut IndexMap<Vec<u8>, usize>,
    names: &[Bytes],
    name: &[u8],
) -> Result<(), AllocError>
    requires { IsHeld word_of places.old.entries names.now }
    ensures held { OnOk result (IsHeld word_of places.new.entries (names.now ++ name.now ∷ [])) }
    ensures unchanged { OnErr result (places.new.entries ≡ places.old.entries) }
{
    if places.get(name).is_none() {
        let key = Vec::from_slice(alloc, name)?;
        places.insert(key, names.len())?;
    }
    Ok(())
}
