//! The two trees of an operator.
ghost use Rattle.std.specs.Prelude.{◌≡◌, IfOk};
ghost use Rattle.nest_tree.specs.Sound.{some_serves, sort_of};
ghost use Rattle.nest_tree.specs.View.{tree_of};
ghost use Rattle.nest_tree.specs.declared.unit.Sort.TheVariants.{Text};
ghost use Rattle.element_atoms.specs.Pairs.{first_atom, second_atom, first_words, second_words};
ghost use Rattle.element_atoms.specs.Positions.{scope_at};

use crate::leaves::{atom_of, words_of};
use crate::numbers::after;
use crate::position::Position;
use loop_tree::{Atom, TextAtom};
use nest_sorts::{some_serves, sort_of};
use nest_tree::{Sort, Tree};
use std::alloc::{AllocError, Global};

/// Two trees: the lines of the first use the variables from number t on, those of the second the variables behind that.
#[derive(Clone, Copy)]
pub struct Pair<'a> {
    pub t: u32,
    pub x: &'a Tree,
    pub y: &'a Tree,
}

pub fn first_atom(position: &Position, pair: &Pair) -> Result<Atom, AllocError>
    ensures { IfOk result (λ a. a ≡ first_atom position.now pair.now) }
{
    atom_of(position, pair.t, pair.x)
}

pub fn second_atom(position: &Position, pair: &Pair) -> Result<Atom, AllocError>
    ensures { IfOk result (λ a. a ≡ second_atom position.now pair.now) }
{
    let u = after(pair.t)?;
    atom_of(position, u, pair.y)
}

pub fn first_words(alloc: Global, position: &Position, pair: &Pair) -> Result<TextAtom, AllocError>
    ensures { IfOk result (λ w. w ≡ first_words position.now pair.now) }
{
    words_of(alloc, position, pair.t, pair.x)
}

pub fn second_words(alloc: Global, position: &Position, pair: &Pair) -> Result<TextAtom, AllocError>
    ensures { IfOk result (λ w. w ≡ second_words position.now pair.now) }
{
    let u = after(pair.t)?;
    words_of(alloc, position, u, pair.y)
}

/// Whether the first is a text.
pub fn are_texts(alloc: Global, position: &Position, pair: &Pair) -> Result<bool, AllocError>
    ensures { IfOk result (λ b. b ≡ some_serves (sort_of (scope_at position.now) (tree_of pair.now.x.now)) Text) }
{
    let sort = sort_of(alloc, &position.scope, pair.x)?;
    Ok(some_serves(sort, Sort::Text))
}
