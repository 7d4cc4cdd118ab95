//! The arguments of elemental functions.
ghost use Rattle.std.specs.Prelude.{◌≡◌, suc, unwrap_or, ◌+◌, IfOk};
ghost use Rattle.nest_tree.specs.Plain.{Trees};
ghost use Rattle.nest_emit.specs.Trees as lines;
ghost use Rattle.nest_sorts.specs.Seen.{operand_of, trees_of};
ghost use Rattle.element_atoms.specs.Positions.{scope_at};

use a95_base::Bytes;
use element_atoms::{Position, after, atom_of, words_of};
use loop_tree::{Atom, TextAtom};
use nest_tree::Operand;
use sqlite_items::Boxed;
use std::alloc::{AllocError, Global};

/// The atom of an argument, if it has the place.
fn atom_if(
    position: &Position,
    place: u32,
    t: u32,
    operand: &Operand,
) -> Result<Option<Atom>, AllocError>
    ensures { IfOk result (λ a. (more : Trees) →
        lines.atom_at (scope_at position.now) position.now.nests place t (operand_of operand.now more)
        ≡ unwrap_or a (lines.atom_at (scope_at position.now) position.now.nests place (suc t) more)) }
{
    if operand.place == place {
        Ok(Some(atom_of(position, t, &operand.value)?))
    } else {
        Ok(None)
    }
}

/// The atom of the argument with a place. The lines of the first argument use the variables from number t on.
pub fn atom_at(
    position: &Position,
    place: u32,
    t: u32,
    operands: &[Operand],
) -> Result<Atom, AllocError>
    ensures { IfOk result
        (λ a. a ≡ lines.atom_at (scope_at position.now) position.now.nests place t (trees_of operands.now)) }
{
    let mut u = t;
    for operand in operands {
        if let Some(atom) = atom_if(position, place, u, operand)? {
            return Ok(atom);
        }
        u = after(u)?;
    }
    Ok(Atom::Number(0))
}

fn words_if(
    alloc: Global,
    position: &Position,
    place: u32,
    t: u32,
    operand: &Operand,
) -> Result<Option<TextAtom>, AllocError>
    ensures { IfOk result (λ w. (more : Trees) →
        lines.words_at (scope_at position.now) position.now.nests place t (operand_of operand.now more)
        ≡ unwrap_or w (lines.words_at (scope_at position.now) position.now.nests place (suc t) more)) }
{
    if operand.place == place {
        let words = words_of(alloc, position, t, &operand.value)?;
        Ok(Some(words))
    } else {
        Ok(None)
    }
}

/// The text atom of the argument with a place.
pub fn words_at(
    alloc: Global,
    position: &Position,
    place: u32,
    t: u32,
    operands: &[Operand],
) -> Result<TextAtom, AllocError>
    ensures { IfOk result
        (λ w. w ≡ lines.words_at (scope_at position.now) position.now.nests place t (trees_of operands.now)) }
{
    let mut u = t;
    for operand in operands {
        if let Some(words) = words_if(alloc, position, place, u, operand)? {
            return Ok(words);
        }
        u = after(u)?;
    }
    Ok(TextAtom::Literal(Boxed::new(alloc, Bytes::new(alloc))?))
}

/// The next number behind one argument.
fn behind(t: u32, operand: &Operand) -> Result<u32, AllocError>
    ensures { IfOk result (λ u. (more : Trees) →
        t + lines.count_trees (operand_of operand.now more) ≡ u + lines.count_trees more) }
{
    let _place = operand.place;
    after(t)
}

/// The first number behind all arguments.
pub fn behind_all(t: u32, operands: &[Operand]) -> Result<u32, AllocError>
    ensures { IfOk result (λ u. u ≡ t + lines.count_trees (trees_of operands.now)) }
{
    let mut u = t;
    for operand in operands {
        u = behind(u, operand)?;
    }
    Ok(u)
}
