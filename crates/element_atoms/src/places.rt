//! The number of the element that an access names.
ghost use Rattle.std.specs.Prelude.{◌≡◌, ◌++◌, OnOk, IfOk};
ghost use Rattle.nest_tree.specs.View.{procedure_of};
ghost use Rattle.nest_emit.specs.Trees.{subscript_atom, subscript_lines, place_atom, place_lines, part_lines};
ghost use Rattle.element_atoms.specs.Dimensions.{distance, joined};
ghost use Rattle.element_atoms.specs.Added.{IsSameBody};
ghost use Rattle.element_atoms.specs.Positions.{own_at};

use crate::leaves::amount_atom;
use crate::numbers::{after, extent_number, loop_number, lower_number};
use crate::position::Position;
use crate::rows::{compute, say};
use loop_tree::{Atom, Code, Operator, TextAtom, TextValue};
use nest_tree::{Along, Dimension, Portion, Procedure};
use std::alloc::{AllocError, Global};

fn subscript_atom(position: &Position, t: u32, along: Along) -> Result<Atom, AllocError>
    ensures { IfOk result (λ a. a ≡ subscript_atom (own_at position.now) position.now.nests t along) }
{
    match along {
        Along::Alone(a) => amount_atom(position.scope.own, a),
        _ => Ok(Atom::Int(t)),
    }
}

fn subscript_lines(
    position: &Position,
    t: u32,
    along: Along,
    code: &mut Code,
) -> Result<(), AllocError>
    ensures rows { OnOk result
        (code.new.statements ≡ code.old.statements ++ subscript_lines (own_at position.now) position.now.nests t along) }
    ensures body { OnOk result (IsSameBody code.old code.new) }
{
    match along {
        Along::Steps(number, start, stride) => {
            let k = loop_number(position.nests, number)?;
            let start = amount_atom(position.scope.own, start)?;
            let stride = amount_atom(position.scope.own, stride)?;
            compute(t, Atom::Loop(k), Operator::Multiply, stride, code)?;
            compute(t, start, Operator::Add, Atom::Int(t), code)
        }
        Along::Alone(_) | Along::Listed(..) => Ok(()),
    }
}

/// How far a subscript is above the lower bound.
fn distance_lines(
    position: &Position,
    t: u32,
    array: u32,
    dim: u32,
    along: Along,
    code: &mut Code,
) -> Result<(), AllocError>
    ensures rows { OnOk result
        (code.new.statements ≡ code.old.statements ++ distance (own_at position.now) position.now.nests t array dim along) }
    ensures body { OnOk result (IsSameBody code.old code.new) }
{
    let lower = lower_number(array, dim)?;
    subscript_lines(position, t, along, code)?;
    let subscript = subscript_atom(position, t, along)?;
    compute(t, subscript, Operator::Subtract, Atom::Int(lower), code)
}

/// The place in the further dimensions times the extent of this one, and the place in this one.
fn joined_lines(
    position: &Position,
    t: u32,
    array: u32,
    dim: u32,
    along: Along,
    code: &mut Code,
) -> Result<(), AllocError>
    ensures rows { OnOk result
        (code.new.statements ≡ code.old.statements ++ joined (own_at position.now) position.now.nests t array dim along) }
    ensures body { OnOk result (IsSameBody code.old code.new) }
{
    let extent = extent_number(array, dim)?;
    let u = after(t)?;
    compute(t, Atom::Int(extent), Operator::Multiply, Atom::Int(t), code)?;
    distance_lines(position, u, array, dim, along, code)?;
    compute(t, Atom::Int(t), Operator::Add, Atom::Int(u), code)
}

/// The number of the element, from the last dimension to the first. The dimensions are those from this one on.
#[tactic(auto, using(crate::proofs::Dimensions::place_first, crate::proofs::Dimensions::place_more))]
pub fn place_lines(
    position: &Position,
    t: u32,
    array: u32,
    dim: u32,
    dimensions: &[Dimension],
    code: &mut Code,
) -> Result<(), AllocError>
    ensures rows { OnOk result
        (code.new.statements ≡ code.old.statements
        ++ place_lines (own_at position.now) position.now.nests t array dim dimensions.now) }
    ensures body { OnOk result (IsSameBody code.old code.new) }
{
    let Some((first, more)) = dimensions.split_first() else {
        return Ok(());
    };
    if more.is_empty() {
        return distance_lines(position, t, array, dim, first.along, code);
    }
    place_lines(position, t, array, after(dim)?, more, code)?;
    joined_lines(position, t, array, dim, first.along, code)
}

/// The atom of that number.
pub fn place_atom(position: &Position, t: u32, dimensions: &[Dimension]) -> Atom
    ensures { result ≡ place_atom (own_at position.now) position.now.nests t dimensions.now }
{
    if dimensions.is_empty() {
        Atom::Number(0)
    } else {
        Atom::Int(t)
    }
}

/// The bytes of a text that an access names.
pub fn part_lines(
    alloc: Global,
    own: &Procedure,
    t: u32,
    portion: Option<Portion>,
    code: &mut Code,
) -> Result<(), AllocError>
    ensures rows { OnOk result (code.new.statements ≡ code.old.statements ++ part_lines (procedure_of own.now) t portion) }
    ensures body { OnOk result (IsSameBody code.old code.new) }
{
    match portion {
        None => Ok(()),
        Some(p) => {
            let first = amount_atom(own, p.first)?;
            let last = amount_atom(own, p.last)?;
            say(
                alloc,
                t,
                TextValue::Part(TextAtom::Variable(t), first, last),
                code,
            )
        }
    }
}
