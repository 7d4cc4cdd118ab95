//! Atoms: what a tree is, once its lines have run.
ghost use Rattle.std.specs.Prelude.{◌≡◌, slice_index_or, IfOk};
ghost use Rattle.array_meaning.specs.Values.{nothing, text_of};
ghost use Rattle.nest_tree.specs.View.{procedure_of};
ghost use Rattle.loop_tree.specs.declared.atom.TextAtom.TheVariants as text;
ghost use Rattle.nest_emit.specs.Trees.{literal, amount_atom};
ghost use Rattle.element_atoms.specs.Positions.{atom_at, words_at};

use crate::numbers::{loop_number, scalar_number};
use crate::position::Position;
use a95_base::{Bytes, Scalar};
use loop_tree::{Atom, TextAtom};
use nest_tree::{Amount, Procedure, Tree};
use sqlite_items::Boxed;
use std::alloc::{AllocError, Global};

fn literal(x: &Scalar) -> Atom
    ensures { result ≡ literal x.now }
{
    match x {
        Scalar::Int(z) => Atom::Number(i64::from(*z)),
        Scalar::Log(true) => Atom::Number(1),
        Scalar::Log(false) => Atom::Number(0),
        Scalar::Text(_) => Atom::Number(0),
    }
}

fn constant(constants: &[Scalar], n: u32) -> Atom
    ensures { result ≡ literal (slice_index_or constants.now n nothing) }
{
    match constants.get(n as usize) {
        Some(x) => literal(x),
        None => Atom::Number(0),
    }
}

fn literal_text(alloc: Global, x: &Scalar) -> Result<TextAtom, AllocError>
    ensures { IfOk result (λ w. w ≡ text.Literal (text_of x.now)) }
{
    let bytes = match x {
        Scalar::Text(bytes) => bytes.copy(alloc)?,
        _ => Bytes::new(alloc),
    };
    Ok(TextAtom::Literal(Boxed::new(alloc, bytes)?))
}

fn constant_text(alloc: Global, constants: &[Scalar], n: u32) -> Result<TextAtom, AllocError>
    ensures { IfOk result (λ w. w ≡ text.Literal (text_of (slice_index_or constants.now n nothing))) }
{
    match constants.get(n as usize) {
        Some(x) => literal_text(alloc, x),
        None => literal_text(alloc, &Scalar::Int(0)),
    }
}

/// An amount as an atom.
pub fn amount_atom(own: &Procedure, amount: Amount) -> Result<Atom, AllocError>
    ensures { IfOk result (λ a. a ≡ amount_atom (procedure_of own.now) amount) }
{
    match amount {
        Amount::Number(z) => Ok(Atom::Number(z)),
        Amount::Kept(k) => Ok(Atom::Int(scalar_number(own, k)?)),
    }
}

/// The atom of a tree whose lines use the variables from number t on.
pub fn atom_of(position: &Position, t: u32, tree: &Tree) -> Result<Atom, AllocError>
    ensures { IfOk result (λ a. a ≡ atom_at position.now t tree.now) }
{
    match tree {
        Tree::Literal(x) => Ok(literal(x)),
        Tree::Number(z) => Ok(Atom::Number(*z)),
        Tree::Constant(n) => Ok(constant(position.scope.unit.constants.as_slice(), *n)),
        Tree::Fixed(k) => Ok(Atom::Int(scalar_number(position.scope.own, *k)?)),
        Tree::Turn(number) => Ok(Atom::Loop(loop_number(position.nests, *number)?)),
        _ => Ok(Atom::Int(t)),
    }
}

/// The text atom of a tree.
pub fn words_of(
    alloc: Global,
    position: &Position,
    t: u32,
    tree: &Tree,
) -> Result<TextAtom, AllocError>
    ensures { IfOk result (λ w. w ≡ words_at position.now t tree.now) }
{
    match tree {
        Tree::Literal(x) => literal_text(alloc, x),
        Tree::Constant(n) => { constant_text(alloc, position.scope.unit.constants.as_slice(), *n) }
        Tree::Fixed(k) => Ok(TextAtom::Variable(scalar_number(position.scope.own, *k)?)),
        _ => Ok(TextAtom::Variable(t)),
    }
}
