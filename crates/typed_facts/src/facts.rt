//! What typed expressions are, by their parts: literals, variables, operators, references to ELEMENTAL functions.
ghost use Rattle.std.specs.Prelude.{◌≡◌, [], IfOk};
ghost use Rattle.a95_base.specs.declared.scalar.Kind.TheVariants as kind;
ghost use Rattle.well_typed.specs.Intrinsics as intrinsics;
ghost use Rattle.well_typed.specs.Known as known;
ghost use Rattle.well_typed.specs.Shapes as shapes;
ghost use Rattle.well_typed.specs.Typing as typing;

use crate::counts::declared_extents;
use crate::shapes::{Extent, joint};
use a95_base::{Kind, Scalar};
use constant_operators::{Facts as ScalarFacts, operator_facts, sign_facts};
use f95_tree::{Operator, Sign};
use f95_unit::Facts;
use sqlite_items::Items;
use std::alloc::{AllocError, Global};
use well_typed::Variable;

/// A copy.
pub fn copied(alloc: Global, f: &Facts) -> Result<Facts, AllocError>
    ensures { IfOk result (λ made. made ≡ f.now) }
{
    Ok(Facts {
        kind: f.kind,
        length: f.length,
        extents: Items::from_slice(alloc, f.extents.as_slice())?,
    })
}

/// A scalar of that kind and length.
fn scalar(alloc: Global, kind: Kind, length: Option<u32>) -> Facts
    ensures { result ≡ shapes.facts kind length [] }
{
    Facts {
        kind,
        length,
        extents: Items::new(alloc),
    }
}

fn wide(length: Option<u32>) -> Option<usize>
    ensures { result ≡ length }
{
    match length {
        None => None,
        Some(n) => Some(n as usize),
    }
}

fn narrow(length: Option<usize>) -> Result<Option<u32>, AllocError>
    ensures { IfOk result (λ n. n ≡ length) }
{
    let Some(n) = length else {
        return Ok(None);
    };
    match u32::try_from(n) {
        Ok(n) => Ok(Some(n)),
        Err(_) => Err(AllocError),
    }
}

/// What each element is.
pub fn each(f: &Facts) -> ScalarFacts
    ensures { result ≡ shapes.each f.now }
{
    ScalarFacts {
        kind: f.kind,
        length: wide(f.length),
    }
}

/// Elements of that sort in that shape.
pub fn shaped(extents: Items<Extent>, of: Option<ScalarFacts>) -> Result<Facts, AllocError>
    ensures { IfOk result (λ made. made ≡ intrinsics.shaped extents of) }
{
    match of {
        None => Ok(Facts {
            kind: Kind::Int,
            length: None,
            extents,
        }),
        Some(f) => Ok(Facts {
            kind: f.kind,
            length: narrow(f.length)?,
            extents,
        }),
    }
}

pub fn scalar_facts(alloc: Global, x: &Scalar) -> Result<Facts, AllocError>
    ensures { IfOk result (λ made. made ≡ known.scalar_facts x.now) }
{
    match x {
        Scalar::Int(_) => Ok(scalar(alloc, Kind::Int, None)),
        Scalar::Log(_) => Ok(scalar(alloc, Kind::Log, None)),
        Scalar::Text(bytes) => Ok(scalar(alloc, Kind::Text, narrow(Some(bytes.len()))?)),
    }
}

pub fn variable_facts(alloc: Global, v: &Variable) -> Result<Facts, AllocError>
    ensures { IfOk result (λ made. made ≡ known.variable_facts v.now) }
{
    Ok(Facts {
        kind: v.kind,
        length: v.length,
        extents: declared_extents(alloc, v.dims.as_slice())?,
    })
}

/// An operation on one operand.
pub fn signed_facts(alloc: Global, sign: Sign, f: &Facts) -> Result<Facts, AllocError>
    ensures { IfOk result (λ made. made ≡ typing.signed_facts sign f.now) }
{
    let extents = Items::from_slice(alloc, f.extents.as_slice())?;
    shaped(extents, sign_facts(sign, &each(f)))
}

/// An operation on two operands.
pub fn operation_facts(
    alloc: Global,
    operator: Operator,
    f: &Facts,
    g: &Facts,
) -> Result<Facts, AllocError>
    ensures { IfOk result (λ made. made ≡ typing.operation_facts operator f.now g.now) }
{
    let of = operator_facts(operator, &each(f), &each(g))?;
    let extents = joint(alloc, f.extents.as_slice(), g.extents.as_slice())?;
    shaped(extents, of)
}
