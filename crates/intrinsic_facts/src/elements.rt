//! Functions that act element by element.
ghost use Rattle.std.specs.Prelude.{◌≡◌, map, IfOk};
ghost use Rattle.std.specs.Option.{is_some};
ghost use Rattle.well_typed.specs.Intrinsics as spec;
ghost use Rattle.well_typed.specs.Shapes.{all_ranks_fit, some_differ, joint_of};

use constant_operators::{Facts as ScalarFacts, Valued, Worth};
use elemental_values::elemental_facts;
use f95_unit::{Elemental, Facts};
use sqlite_items::Items;
use std::alloc::{AllocError, Global};
use typed_facts::{Extent, all_ranks_fit, each, intrinsic_of, joint_of, shaped, some_differ};
use well_typed::Given;

fn seen(alloc: Global, gs: &[Given]) -> Result<Vec<(usize, Valued)>, AllocError>
    ensures { IfOk result (λ seen. seen.items ≡ map spec.seen gs.now) }
{
    let mut seen = Vec::new(alloc);
    for g in gs {
        let valued = Valued {
            facts: each(&g.facts),
            worth: Worth::Unknown,
        };
        seen.push((g.place, valued))?;
    }
    Ok(seen)
}

fn shapes(alloc: Global, gs: &[Given]) -> Result<Vec<Items<Extent>>, AllocError>
    ensures { IfOk result (λ shapes. shapes.items ≡ spec.shapes gs.now) }
{
    let mut shapes = Vec::new(alloc);
    for g in gs {
        shapes.push(Items::from_slice(alloc, g.facts.extents.as_slice())?)?;
    }
    Ok(shapes)
}

fn element_facts(
    alloc: Global,
    which: Elemental,
    gs: &[Given],
) -> Result<Option<ScalarFacts>, AllocError>
    ensures { IfOk result (λ made. made ≡ spec.element_facts which gs.now) }
{
    let seen = seen(alloc, gs)?;
    Ok(elemental_facts(intrinsic_of(which), seen.as_slice()))
}

pub fn element_takes(alloc: Global, which: Elemental, gs: &[Given]) -> Result<bool, AllocError>
    ensures { IfOk result (λ takes. takes ≡ spec.element_takes which gs.now) }
{
    let of = element_facts(alloc, which, gs)?;
    let shapes = shapes(alloc, gs)?;
    Ok(of.is_some() && all_ranks_fit(shapes.as_slice()))
}

/// Extents of two of them differ.
pub fn shapes_differ(alloc: Global, gs: &[Given]) -> Result<bool, AllocError>
    ensures { IfOk result (λ differ. differ ≡ some_differ (spec.shapes gs.now)) }
{
    let shapes = shapes(alloc, gs)?;
    some_differ(alloc, shapes.as_slice())
}

pub fn element_value(alloc: Global, which: Elemental, gs: &[Given]) -> Result<Facts, AllocError>
    ensures { IfOk result (λ made. made ≡ spec.shaped (joint_of (spec.shapes gs.now)) (spec.element_facts which gs.now)) }
{
    let of = element_facts(alloc, which, gs)?;
    let shapes = shapes(alloc, gs)?;
    let extents = joint_of(alloc, shapes.as_slice())?;
    shaped(extents, of)
}
