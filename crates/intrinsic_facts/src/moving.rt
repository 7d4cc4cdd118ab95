//! Functions that put elements into other places.
ghost use Rattle.std.specs.Prelude.{◌≡◌, ◌&&◌, ◌||◌, map, reverse, replicate, None, IfOk};
ghost use Rattle.f95_unit.specs.declared.operation.Rearranging.TheVariants as rearranging;
ghost use Rattle.well_typed.specs.Intrinsics as spec;
ghost use Rattle.well_typed.specs.Shapes.{differ};

use crate::arguments::{
    are_alike, dim_fits, extents_at, given_at, is_array_at, is_array_of_at, is_given, is_mask_at,
    is_no_text_at, is_of_at, is_scalar_at, is_scalar_of_at, is_vector_of_at, kind_at, rank_at,
};
use a95_base::Kind;
use f95_unit::{Facts, Rearranging};
use sqlite_items::Items;
use std::alloc::{AllocError, Global};
use typed_facts::{Extent, differ};
use well_typed::Given;

// ---- which arguments they take

fn shifts_rightly(dim: Option<u8>, gs: &[Given]) -> bool
    ensures { result ≡ spec.shifts_rightly dim gs.now }
{
    is_array_at(0, gs)
        && is_no_text_at(0, gs)
        && is_scalar_of_at(Kind::Int, 1, gs)
        && dim_fits(dim, rank_at(0, gs))
}

fn may_bound(gs: &[Given]) -> bool
    ensures { result ≡ spec.may_bound gs.now }
{
    !is_given(2, gs) || is_scalar_of_at(kind_at(0, gs), 2, gs)
}

fn spreads_rightly(dim: Option<u8>, gs: &[Given]) -> bool
    ensures { result ≡ spec.spreads_rightly dim gs.now }
{
    let rank = rank_at(0, gs);
    is_no_text_at(0, gs)
        && rank < 7
        && is_scalar_of_at(Kind::Int, 2, gs)
        && dim.is_some()
        && dim_fits(dim, rank + 1)
}

fn packs_rightly(gs: &[Given]) -> bool
    ensures { result ≡ spec.packs_rightly gs.now }
{
    is_array_at(0, gs)
        && is_no_text_at(0, gs)
        && is_mask_at(1, 0, gs)
        && (!is_given(2, gs) || is_vector_of_at(kind_at(0, gs), 2, gs))
}

fn unpacks_rightly(gs: &[Given]) -> bool
    ensures { result ≡ spec.unpacks_rightly gs.now }
{
    rank_at(0, gs) == 1
        && is_no_text_at(0, gs)
        && is_array_of_at(Kind::Log, 1, gs)
        && are_alike(0, 2, gs)
        && (is_scalar_at(2, gs) || rank_at(2, gs) == rank_at(1, gs))
}

/// The extent of an array of rank one, where it is known.
#[tactic(auto, using(crate::proofs::Ends::only_one, crate::proofs::Ends::only_many))]
fn only_extent(extents: &[Extent]) -> Extent
    ensures { result ≡ spec.only_extent extents.now }
{
    let Some((n, rest)) = extents.split_first() else {
        return None;
    };
    if rest.len() == 0 { *n } else { None }
}

fn is_shape(extent: Extent) -> bool
    ensures { result ≡ spec.is_shape extent }
{
    match extent {
        None => false,
        Some(n) => 1 <= n && n <= 7,
    }
}

fn is_order_for(shape: Extent, order: Extent) -> bool
    ensures { result ≡ spec.is_order_for shape order }
{
    let Some(n) = shape else {
        return false;
    };
    let Some(m) = order else {
        return false;
    };
    n == m
}

fn may_pad(gs: &[Given]) -> bool
    ensures { result ≡ spec.may_pad gs.now }
{
    !is_given(2, gs) || is_array_of_at(kind_at(0, gs), 2, gs)
}

fn may_order(gs: &[Given]) -> bool
    ensures { result ≡ spec.may_order gs.now }
{
    !is_given(3, gs)
        || is_of_at(Kind::Int, 3, gs)
            && is_order_for(
                only_extent(extents_at(1, gs)),
                only_extent(extents_at(3, gs)),
            )
}

fn reshapes_rightly(gs: &[Given]) -> bool
    ensures { result ≡ spec.reshapes_rightly gs.now }
{
    is_array_at(0, gs)
        && is_no_text_at(0, gs)
        && is_of_at(Kind::Int, 1, gs)
        && is_shape(only_extent(extents_at(1, gs)))
        && may_pad(gs)
        && may_order(gs)
}

pub fn moves_rightly(which: Rearranging, dim: Option<u8>, gs: &[Given]) -> bool
    ensures { result ≡ spec.moves_rightly which dim gs.now }
{
    match which {
        Rearranging::Transpose => rank_at(0, gs) == 2 && is_no_text_at(0, gs),
        Rearranging::Cshift => shifts_rightly(dim, gs),
        Rearranging::Eoshift => shifts_rightly(dim, gs) && may_bound(gs),
        Rearranging::Spread => spreads_rightly(dim, gs),
        Rearranging::Pack => packs_rightly(gs),
        Rearranging::Unpack => unpacks_rightly(gs),
        Rearranging::Reshape => reshapes_rightly(gs),
    }
}

// ---- which extents must be the same

pub fn moves_others(which: Rearranging, gs: &[Given]) -> bool
    ensures { result ≡ spec.moves_others which gs.now }
{
    match which {
        Rearranging::Pack => differ(extents_at(0, gs), extents_at(1, gs)),
        Rearranging::Unpack => differ(extents_at(1, gs), extents_at(2, gs)),
        _ => false,
    }
}

// ---- what their value is

/// MAX(NCOPIES, 0), where NCOPIES is known.
fn at_least_none(copies: Option<i32>) -> Extent
    ensures { result ≡ spec.at_least_none copies }
{
    let Some(n) = copies else {
        return None;
    };
    match u64::try_from(n) {
        Ok(n) => Some(n),
        Err(_) => Some(0),
    }
}

fn copies(gs: &[Given]) -> Extent
    ensures { result ≡ spec.copies (spec.given_at 2 gs.now) }
{
    match given_at(2, gs) {
        None => None,
        Some(g) => at_least_none(g.known),
    }
}

/// An entry of SHAPE, where it is known and not negative.
fn extent_in(entry: Option<i32>) -> Extent
    ensures { result ≡ spec.extent_in entry }
{
    let Some(n) = entry else {
        return None;
    };
    match u64::try_from(n) {
        Ok(n) => Some(n),
        Err(_) => None,
    }
}

fn reversed(alloc: Global, extents: &[Extent]) -> Result<Items<Extent>, AllocError>
    ensures { IfOk result (λ made. made ≡ reverse extents.now) }
{
    let mut made = Vec::from_slice(alloc, extents)?;
    made.reverse();
    Ok(Items::from_vec(made))
}

#[tactic(auto, using(crate::proofs::Ends::with_past))]
fn with_at(
    alloc: Global,
    at: usize,
    n: Extent,
    extents: &[Extent],
) -> Result<Items<Extent>, AllocError>
    ensures { IfOk result (λ made. made ≡ spec.with_at at n extents.now) }
{
    let mut made = Vec::from_slice(alloc, extents)?;
    if at < made.len() {
        made.insert(at, n)?;
    } else {
        made.push(n)?;
    }
    Ok(Items::from_vec(made))
}

#[tactic(auto, using(crate::proofs::Ends::with_dim_at))]
fn with_dim(
    alloc: Global,
    dim: Option<u8>,
    n: Extent,
    extents: &[Extent],
) -> Result<Items<Extent>, AllocError>
    ensures { IfOk result (λ made. made ≡ spec.with_dim dim n extents.now) }
{
    let Some(d) = dim else {
        return Items::from_slice(alloc, extents);
    };
    if d == 0 {
        Items::from_slice(alloc, extents)
    } else {
        with_at(alloc, usize::from(d - 1), n, extents)
    }
}

fn packed(alloc: Global, gs: &[Given]) -> Result<Items<Extent>, AllocError>
    ensures { IfOk result (λ made. made ≡ spec.packed gs.now) }
{
    if is_given(2, gs) {
        return Items::from_slice(alloc, extents_at(2, gs));
    }
    let mut made = Items::new(alloc);
    made.push(None)?;
    Ok(made)
}

fn entry_extents(alloc: Global, entries: &[Option<i32>]) -> Result<Items<Extent>, AllocError>
    ensures { IfOk result (λ made. made ≡ map spec.extent_in entries.now) }
{
    let mut made = Items::new(alloc);
    for entry in entries {
        made.push(extent_in(*entry))?;
    }
    Ok(made)
}

fn unknown_extents(alloc: Global, count: u64) -> Result<Items<Extent>, AllocError>
    ensures { IfOk result (λ made. made ≡ replicate count None) }
{
    let mut made = Items::new(alloc);
    for _dimension in 0..count {
        made.push(None)?;
    }
    Ok(made)
}

fn reshaped_to(
    alloc: Global,
    count: u64,
    entries: &[Option<i32>],
) -> Result<Items<Extent>, AllocError>
    ensures { IfOk result (λ made. made ≡ spec.reshaped_to count entries.now) }
{
    if entries.len() as u64 == count {
        entry_extents(alloc, entries)
    } else {
        unknown_extents(alloc, count)
    }
}

fn reshaped_by(
    alloc: Global,
    count: Extent,
    entries: &[Option<i32>],
) -> Result<Items<Extent>, AllocError>
    ensures { IfOk result (λ made. made ≡ spec.reshaped_by count entries.now) }
{
    match count {
        None => Ok(Items::new(alloc)),
        Some(n) => reshaped_to(alloc, n, entries),
    }
}

fn reshaped(alloc: Global, gs: &[Given]) -> Result<Items<Extent>, AllocError>
    ensures { IfOk result (λ made. made ≡ spec.reshaped (spec.given_at 1 gs.now)) }
{
    match given_at(1, gs) {
        None => Ok(Items::new(alloc)),
        Some(g) => reshaped_by(
            alloc,
            only_extent(g.facts.extents.as_slice()),
            g.entries.as_slice(),
        ),
    }
}

fn moved_extents(
    alloc: Global,
    which: Rearranging,
    dim: Option<u8>,
    gs: &[Given],
) -> Result<Items<Extent>, AllocError>
    ensures { IfOk result (λ made. made ≡ spec.moved_extents which dim gs.now) }
{
    match which {
        Rearranging::Transpose => reversed(alloc, extents_at(0, gs)),
        Rearranging::Spread => with_dim(alloc, dim, copies(gs), extents_at(0, gs)),
        Rearranging::Pack => packed(alloc, gs),
        Rearranging::Unpack => Items::from_slice(alloc, extents_at(1, gs)),
        Rearranging::Reshape => reshaped(alloc, gs),
        _ => Items::from_slice(alloc, extents_at(0, gs)),
    }
}

pub fn moved(
    alloc: Global,
    which: Rearranging,
    dim: Option<u8>,
    gs: &[Given],
) -> Result<Facts, AllocError>
    ensures { IfOk result (λ made. made ≡ spec.moved which dim gs.now) }
{
    Ok(Facts {
        kind: kind_at(0, gs),
        length: None,
        extents: moved_extents(alloc, which, dim, gs)?,
    })
}
