//! Extents and numbers of values, where the source tells them.
ghost use Rattle.std.specs.Prelude.{◌≡◌, ◌+ℤ◌, ◌-ℤ◌, pos, int_lt, unsigned_abs, if◌then◌else◌, IfOk};
ghost use Rattle.names_types.specs.Rules as rules;
ghost use Rattle.well_typed.specs.Known as spec;

use crate::shapes::Extent;
use sqlite_items::Items;
use std::alloc::{AllocError, Global};
use well_typed::Dim;

fn extent_of(lower: i32, upper: i32) -> u64
    ensures { result ≡ (if int_lt upper lower then 0 else unsigned_abs (upper -ℤ lower +ℤ pos 1)) }
{
    if upper < lower {
        0
    } else {
        (i64::from(upper) - i64::from(lower) + 1).unsigned_abs()
    }
}

/// The extent between two bounds, where both are known.
pub fn extent_between(lower: Option<i32>, upper: Option<i32>) -> Extent
    ensures { result ≡ rules.extent_between lower upper }
{
    let Some(lower) = lower else {
        return None;
    };
    let Some(upper) = upper else {
        return None;
    };
    Some(extent_of(lower, upper))
}

/// The extents of a variable, by its bounds.
pub fn declared_extents(alloc: Global, dims: &[Dim]) -> Result<Items<Extent>, AllocError>
    ensures { IfOk result (λ extents. extents ≡ spec.declared_extents dims.now) }
{
    let mut extents = Items::new(alloc);
    for d in dims {
        extents.push(extent_between(d.lower, d.upper))?;
    }
    Ok(extents)
}

pub fn plus(m: Extent, n: Extent) -> Result<Extent, AllocError>
    ensures { IfOk result (λ sum. sum ≡ spec.plus m n) }
{
    let Some(m) = m else {
        return Ok(None);
    };
    let Some(n) = n else {
        return Ok(None);
    };
    match m.checked_add(n) {
        Some(sum) => Ok(Some(sum)),
        None => Err(AllocError),
    }
}

pub fn times(m: Extent, n: Extent) -> Result<Extent, AllocError>
    ensures { IfOk result (λ product. product ≡ rules.times m n) }
{
    let Some(m) = m else {
        return Ok(None);
    };
    let Some(n) = n else {
        return Ok(None);
    };
    match m.checked_mul(n) {
        Some(product) => Ok(Some(product)),
        None => Err(AllocError),
    }
}

/// The number of elements, where all extents are known.
pub fn size_known(extents: &[Extent]) -> Result<Extent, AllocError>
    ensures { IfOk result (λ size. size ≡ spec.size_known extents.now) }
{
    let mut size = Some(1);
    for n in extents {
        size = times(size, *n)?;
    }
    Ok(size)
}
