//! Functions that make one value of many elements.
ghost use Rattle.std.specs.Prelude.{◌≡◌, ◌&&◌, ◌++◌, ◌==◌, drop, None, not, slice_index_or, IfOk};
ghost use Rattle.a95_base.specs.declared.scalar.Kind.TheVariants as kind;
ghost use Rattle.f95_unit.specs.declared.operation.Reduction.TheVariants as reduction;
ghost use Rattle.well_typed.specs.Intrinsics as spec;
ghost use Rattle.well_typed.specs.Shapes.{rank};

use crate::arguments::{
    are_alike, dim_fits, extents_at, is_array_of_at, is_no_text_at, is_vector_of_at, kind_at,
    may_be_mask_at, rank_at,
};
use crate::asking::for_each_dimension;
use crate::elements::shapes_differ;
use a95_base::Kind;
use f95_unit::{Facts, Reduction};
use sqlite_items::Items;
use std::alloc::{AllocError, Global};
use typed_facts::{Extent, are_other};
use well_typed::Given;

// ---- which arguments they take

fn is_fold(kind: Kind, dim: Option<u8>, gs: &[Given]) -> bool
    ensures { result ≡ spec.is_fold kind dim (spec.at 0 gs.now) }
{
    is_array_of_at(kind, 0, gs) && dim_fits(dim, rank_at(0, gs))
}

fn folds_rightly(dim: Option<u8>, gs: &[Given]) -> bool
    ensures { result ≡ spec.folds_rightly dim gs.now }
{
    is_fold(Kind::Int, dim, gs) && may_be_mask_at(2, 0, gs)
}

fn finds_rightly(gs: &[Given]) -> bool
    ensures { result ≡ spec.finds_rightly gs.now }
{
    is_array_of_at(Kind::Int, 0, gs) && may_be_mask_at(1, 0, gs)
}

fn are_factors(m: usize, n: usize) -> bool
    ensures { result ≡ spec.are_factor_ranks m n }
{
    m == 2 && n == 2 || (m == 1 && n == 2 || m == 2 && n == 1)
}

fn multiplies_rightly(gs: &[Given]) -> bool
    ensures { result ≡ spec.multiplies_rightly gs.now }
{
    is_no_text_at(0, gs) && are_alike(0, 1, gs) && are_factors(rank_at(0, gs), rank_at(1, gs))
}

fn dots_rightly(gs: &[Given]) -> bool
    ensures { result ≡ spec.dots_rightly gs.now }
{
    rank_at(0, gs) == 1 && is_no_text_at(0, gs) && is_vector_of_at(kind_at(0, gs), 1, gs)
}

pub fn reduces_rightly(which: Reduction, dim: Option<u8>, gs: &[Given]) -> bool
    ensures { result ≡ spec.reduces_rightly which dim gs.now }
{
    match which {
        Reduction::Sum | Reduction::Product | Reduction::Maxval | Reduction::Minval =>
            folds_rightly(dim, gs),
        Reduction::All | Reduction::Any | Reduction::Count => is_fold(Kind::Log, dim, gs),
        Reduction::Maxloc | Reduction::Minloc => finds_rightly(gs),
        Reduction::DotProduct => dots_rightly(gs),
        Reduction::Matmul => multiplies_rightly(gs),
    }
}

// ---- which extents must be the same

#[tactic(auto, using(crate::proofs::Ends::last_behind, crate::proofs::Ends::last_of_none))]
fn last_of(extents: &[Extent]) -> Extent
    ensures { result ≡ spec.last_of extents.now }
{
    match extents.split_last() {
        None => None,
        Some((n, _)) => *n,
    }
}

fn first_of(extents: &[Extent]) -> Extent
    ensures { result ≡ spec.first_of extents.now }
{
    match extents.split_first() {
        None => None,
        Some((n, _)) => *n,
    }
}

fn factors_differ(gs: &[Given]) -> bool
    ensures { result ≡ spec.factors_differ gs.now }
{
    are_other(last_of(extents_at(0, gs)), first_of(extents_at(1, gs)))
}

pub fn reduces_others(alloc: Global, which: Reduction, gs: &[Given]) -> Result<bool, AllocError>
    ensures { IfOk result (λ others. others ≡ spec.reduces_others which gs.now) }
{
    match which {
        Reduction::Matmul => Ok(factors_differ(gs)),
        _ => shapes_differ(alloc, gs),
    }
}

// ---- what their value is

#[tactic(auto, using(crate::proofs::Ends::without_none))]
fn without_at(alloc: Global, at: usize, extents: &[Extent]) -> Result<Items<Extent>, AllocError>
    ensures { IfOk result (λ made. made ≡ spec.without_at at extents.now) }
{
    let mut made = Items::from_slice(alloc, extents)?;
    if at < made.len() {
        made.remove(at);
    }
    Ok(made)
}

#[tactic(auto, using(crate::proofs::Ends::without_dim_at))]
fn without_dim(
    alloc: Global,
    dim: Option<u8>,
    extents: &[Extent],
) -> Result<Items<Extent>, AllocError>
    ensures { IfOk result (λ made. made ≡ spec.without_dim dim extents.now) }
{
    let Some(d) = dim else {
        return Ok(Items::new(alloc));
    };
    if d == 0 {
        Items::from_slice(alloc, extents)
    } else {
        without_at(alloc, usize::from(d - 1), extents)
    }
}

fn folded(alloc: Global, kind: Kind, dim: Option<u8>, gs: &[Given]) -> Result<Facts, AllocError>
    ensures { IfOk result (λ made. made ≡ spec.folded kind dim gs.now) }
{
    Ok(Facts {
        kind,
        length: None,
        extents: without_dim(alloc, dim, extents_at(0, gs))?,
    })
}

#[tactic(auto, using(crate::proofs::Ends::without_last_behind, crate::proofs::Ends::without_last_of_none))]
fn without_last(alloc: Global, extents: &[Extent]) -> Result<Items<Extent>, AllocError>
    ensures { IfOk result (λ made. made ≡ spec.without_last extents.now) }
{
    match extents.split_last() {
        None => Ok(Items::new(alloc)),
        Some((_, front)) => Items::from_slice(alloc, front),
    }
}

fn behind_first(extents: &[Extent]) -> &[Extent]
    ensures { result.now ≡ drop 1 extents.now }
{
    match extents.split_first() {
        None => &[],
        Some((_, rest)) => rest,
    }
}

fn product_extents(alloc: Global, gs: &[Given]) -> Result<Items<Extent>, AllocError>
    ensures { IfOk result (λ made. made ≡ spec.product_extents gs.now) }
{
    let mut made = without_last(alloc, extents_at(0, gs))?;
    let rest = Items::from_slice(alloc, behind_first(extents_at(1, gs)))?;
    made.append(rest)?;
    Ok(made)
}

fn product(alloc: Global, gs: &[Given]) -> Result<Facts, AllocError>
    ensures { IfOk result (λ made. made ≡ spec.reduced reduction.Matmul None gs.now) }
{
    Ok(Facts {
        kind: kind_at(0, gs),
        length: None,
        extents: product_extents(alloc, gs)?,
    })
}

fn dotted(alloc: Global, gs: &[Given]) -> Facts
    ensures { result ≡ spec.reduced reduction.DotProduct None gs.now }
{
    Facts {
        kind: kind_at(0, gs),
        length: None,
        extents: Items::new(alloc),
    }
}

pub fn reduced(
    alloc: Global,
    which: Reduction,
    dim: Option<u8>,
    gs: &[Given],
) -> Result<Facts, AllocError>
    ensures { IfOk result (λ made. made ≡ spec.reduced which dim gs.now) }
{
    match which {
        Reduction::All | Reduction::Any => folded(alloc, Kind::Log, dim, gs),
        Reduction::Maxloc | Reduction::Minloc => for_each_dimension(alloc, rank_at(0, gs)),
        Reduction::DotProduct => Ok(dotted(alloc, gs)),
        Reduction::Matmul => product(alloc, gs),
        _ => folded(alloc, Kind::Int, dim, gs),
    }
}
