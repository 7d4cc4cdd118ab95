//! The arrays that were declared, by their names.
ghost use Rattle.std.specs.Prelude.{◌≡◌, ◌∷◌, ◌++◌, [], ◌<◌, ◌^◌, length, map, IfOk, OnOk, Some, None, slice_get};
ghost use Rattle.std.specs.Option.{option_map};
ghost use Rattle.rank_one.specs.Conditions.{place_of, extent_of};

use crate::name::Name;
use crate::unit::Array;
use sqlite_items::Items;
use std::alloc::{AllocError, Global};
use std::collections::BTreeMap;
use std::marker::Model;

/// A declared array and its name.
#[derive(Drop)]
pub struct Symbol<'a> {
    pub name: Name<'a>,
    pub array: Array,
}

/// The declared arrays in order, each found by its name. Contracts see the list.
#[derive(Drop)]
pub struct Symbols<'a> {
    symbols: Vec<Symbol<'a>>,
    places: BTreeMap<&'a [u8], u32>,
}

impl<'a> Model for Symbols<'a> {
    ghost use Rattle.std.specs.Prelude.{List, ℕ, ◌≡◌, length, ◌<◌, ◌^◌};
    ghost use Rattle.std.specs.BTreeMap.{get_by};
    ghost use Rattle.std.specs.Ordering.{nat_cmp};
    ghost use Rattle.std.specs.Cmp.Lexicographic.{slice_cmp};
    ghost use Rattle.rank_one.specs.Conditions.{place_of};
    ghost use Rattle.rank_one.specs.declared.symbols.Symbol.{Symbol};

    ghost Value = { List Symbol };

    ghost view = { λ s. s.symbols.items };

    ghost invariant = { λ s.
        ((name : List ℕ) → get_by (λ k. slice_cmp nat_cmp name k.now) s.places ≡ place_of s.symbols.items name)
        × (length s.symbols.items < 2 ^ 32) };
}

impl<'a> Symbols<'a> {
    pub fn new(alloc: Global) -> Symbols<'a>
        ensures { result ≡ [] }
    {
        Symbols {
            symbols: Vec::new(alloc),
            places: BTreeMap::new(alloc),
        }
    }

    /// The place of the array with this name.
    pub fn place(&self, name: &[u8]) -> Option<u32>
        ensures { result ≡ place_of self.now name.now }
    {
        self.places.get(name).copied()
    }

    /// The place and the extent of the array with this name.
    pub fn find(&self, name: &[u8]) -> Option<(u32, u32)>
        ensures place { option_map (λ found. found.0) result ≡ place_of self.now name.now }
        ensures extent { option_map (λ found. found.1) result ≡ extent_of self.now name.now }
    {
        match self.place(name) {
            None => None,
            Some(place) => Some((place, self.symbols[place as usize].array.extent)),
        }
    }

    /// Adds an array whose name isn't declared. There is no room for more than 2^32 - 1 of them.
    pub fn push(&mut self, symbol: Symbol<'a>) -> Result<(), AllocError>
        requires { place_of self.old symbol.name ≡ None }
        ensures { OnOk result (self.new ≡ self.old ++ symbol.entry ∷ []) }
    {
        if self.symbols.len() >= u32::MAX as usize {
            return Err(AllocError);
        }
        let place = self.symbols.len() as u32;
        let name = symbol.name.as_slice();
        self.symbols.push(symbol)?;
        match self.places.insert(name, place) {
            Ok(_) => Ok(()),
            Err(_) => {
                self.symbols.pop();
                Err(AllocError)
            }
        }
    }

    /// The arrays without their names.
    pub fn arrays(&self, alloc: Global) -> Result<Items<Array>, AllocError>
        ensures arrays { IfOk result (λ arrays. arrays ≡ map (λ s. s.array) self.now) }
        ensures count { length self.now < 2 ^ 32 }
    {
        Ok(Items::from_vec(arrays_of(alloc, &self.symbols)?))
    }
}

fn arrays_of(alloc: Global, symbols: &[Symbol<'_>]) -> Result<Vec<Array>, AllocError>
    ensures { IfOk result (λ arrays. arrays.items ≡ map (λ s. s.array) symbols.now) }
{
    symbols.iter().map(|symbol| symbol.array).collect(alloc)
}
