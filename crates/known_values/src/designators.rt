//! Sections and substrings. A bound that a triplet leaves out is the declared one.
ghost use Rattle.std.specs.Prelude.{◌≡◌, [], ◌∷◌, ◌++◌, List, IfOk};
ghost use Rattle.f95_unit.specs.View.{bound_of};
ghost use Rattle.f95_unit.specs.Plain.{Subscripts};
ghost use Rattle.proc_calls.specs.View.{access_of, part_of, subscript_of, subscripts_of};
ghost use Rattle.well_typed.specs.declared.known.Dim.{Dim};
ghost use Rattle.well_typed.specs.Known as spec;

use crate::counts::count_between;
use crate::worth::bound_known;
use a95_base::Scalar;
use f95_unit::{Access, Bound, Facts, Part, Subscript};
use sqlite_items::Items;
use std::alloc::{AllocError, Global};
use typed_facts::{Extent, declared_extents, extent_between};
use well_typed::{Dim, Variable};

fn triplet_extent(
    alloc: Global,
    constants: &[Scalar],
    d: Dim,
    first: &Bound,
    last: &Bound,
    stride: &Bound,
) -> Result<Extent, AllocError>
    ensures { IfOk result (λ n.
        n ≡ spec.triplet_extent constants.now d (bound_of first.now) (bound_of last.now) (bound_of stride.now)) }
{
    let first = bound_known(alloc, constants, d.lower, first)?;
    let last = bound_known(alloc, constants, d.upper, last)?;
    let stride = bound_known(alloc, constants, Some(1), stride)?;
    Ok(count_between(first, last, stride))
}

/// The extents of one dimension, behind those before.
fn with_picked(
    alloc: Global,
    constants: &[Scalar],
    d: Dim,
    s: &Subscript,
    made: Items<Extent>,
) -> Result<Items<Extent>, AllocError>
    ensures { IfOk result (λ r. (dims : List Dim) (more : Subscripts)
        → made ++ spec.section_extents constants.now (d ∷ dims) (subscript_of s.now more)
        ≡ r ++ spec.section_extents constants.now dims more) }
{
    let mut made = made;
    match s {
        Subscript::One(_) => {}
        Subscript::Vector(e) => {
            let extents = Items::from_slice(alloc, e.get().facts.extents.as_slice())?;
            made.append(extents)?;
        }
        Subscript::Triplet(first, last, stride) => {
            let extent = triplet_extent(alloc, constants, d, first, last, stride)?;
            made.push(extent)?;
        }
    }
    Ok(made)
}

#[tactic(auto, using(crate::proofs::Sums::section_ends))]
fn section_extents(
    alloc: Global,
    constants: &[Scalar],
    dims: &[Dim],
    subscripts: &[Subscript],
) -> Result<Items<Extent>, AllocError>
    ensures { IfOk result (λ made. made ≡ spec.section_extents constants.now dims.now (subscripts_of subscripts.now)) }
{
    let mut made = Items::new(alloc);
    let mut rest = subscripts;
    for d in dims {
        let Some((s, more)) = rest.split_first() else {
            return Ok(made);
        };
        made = with_picked(alloc, constants, *d, s, made)?;
        rest = more;
    }
    Ok(made)
}

fn access_extents(
    alloc: Global,
    constants: &[Scalar],
    dims: &[Dim],
    access: &Access,
) -> Result<Items<Extent>, AllocError>
    ensures { IfOk result (λ made. made ≡ spec.access_extents constants.now dims.now (access_of access.now)) }
{
    match access {
        Access::Whole => declared_extents(alloc, dims),
        Access::At(subscripts) => section_extents(alloc, constants, dims, subscripts.as_slice()),
    }
}

/// A length as an INTEGER. One that no INTEGER reaches ends as want of memory does.
fn integer_of_length(length: Option<u32>) -> Result<Option<i32>, AllocError>
    ensures { IfOk result (λ z. z ≡ spec.integer_of_length [] length) }
{
    let Some(n) = length else {
        return Ok(None);
    };
    match i32::try_from(n) {
        Ok(z) => Ok(Some(z)),
        Err(_) => Err(AllocError),
    }
}

fn narrow(extent: Extent) -> Result<Option<u32>, AllocError>
    ensures { IfOk result (λ n. n ≡ extent) }
{
    let Some(n) = extent else {
        return Ok(None);
    };
    match u32::try_from(n) {
        Ok(n) => Ok(Some(n)),
        Err(_) => Err(AllocError),
    }
}

fn cut_length(
    alloc: Global,
    constants: &[Scalar],
    length: Option<u32>,
    first: &Bound,
    last: &Bound,
) -> Result<Option<u32>, AllocError>
    ensures { IfOk result (λ n. n ≡ spec.cut_length constants.now length (bound_of first.now) (bound_of last.now)) }
{
    let whole = integer_of_length(length)?;
    let first = bound_known(alloc, constants, Some(1), first)?;
    let last = bound_known(alloc, constants, whole, last)?;
    narrow(extent_between(first, last))
}

fn part_length(
    alloc: Global,
    constants: &[Scalar],
    length: Option<u32>,
    part: &Part,
) -> Result<Option<u32>, AllocError>
    ensures { IfOk result (λ n. n ≡ spec.part_length constants.now length (part_of part.now)) }
{
    match part {
        Part::All => Ok(length),
        Part::Bytes(first, last) => cut_length(alloc, constants, length, first, last),
    }
}

/// What is named of a variable.
pub fn designator_facts(
    alloc: Global,
    constants: &[Scalar],
    v: &Variable,
    access: &Access,
    part: &Part,
) -> Result<Facts, AllocError>
    ensures { IfOk result (λ f. f ≡ spec.designator_facts constants.now v.now (access_of access.now) (part_of part.now)) }
{
    let length = part_length(alloc, constants, v.length, part)?;
    let extents = access_extents(alloc, constants, v.dims.as_slice(), access)?;
    Ok(Facts {
        kind: v.kind,
        length,
        extents,
    })
}
