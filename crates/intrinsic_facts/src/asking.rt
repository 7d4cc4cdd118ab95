//! Functions that ask for shapes, bounds, allocation and lengths.
ghost use Rattle.std.specs.Prelude.{◌≡◌, ◌&&◌, IfOk};
ghost use Rattle.std.specs.List.{list_any};
ghost use Rattle.well_typed.specs.declared.known.Given.{Given};
ghost use Rattle.well_typed.specs.Intrinsics as spec;
ghost use Rattle.well_typed.specs.Shapes.{rank, is_array};

use crate::arguments::{dim_fits, is_array_at, is_of_at, rank_at};
use a95_base::Kind;
use f95_unit::{Facts, Inquiry};
use sqlite_items::Items;
use std::alloc::{AllocError, Global};
use well_typed::Given;

fn some_allocatable(gs: &[Given]) -> bool
    ensures { result ≡ list_any (λ (g : Given). g.allocatable) gs.now }
{
    for g in gs {
        if g.allocatable {
            return true;
        }
    }
    false
}

fn has_dim(dim: Option<u8>, gs: &[Given]) -> bool
    ensures { result ≡ (is_array (spec.at 0 gs.now) && spec.dim_fits dim (rank (spec.at 0 gs.now))) }
{
    is_array_at(0, gs) && dim_fits(dim, rank_at(0, gs))
}

pub fn asks_rightly(which: Inquiry, dim: Option<u8>, gs: &[Given]) -> bool
    ensures { result ≡ spec.asks_rightly which dim gs.now }
{
    match which {
        Inquiry::Size | Inquiry::Lbound | Inquiry::Ubound => has_dim(dim, gs),
        Inquiry::Shape => true,
        Inquiry::Allocated => some_allocatable(gs),
        Inquiry::Len => is_of_at(Kind::Text, 0, gs),
    }
}

fn scalar_of(alloc: Global, kind: Kind) -> Facts
    ensures { result ≡ spec.a_scalar kind }
{
    Facts {
        kind,
        length: None,
        extents: Items::new(alloc),
    }
}

/// One INTEGER for each dimension.
pub fn for_each_dimension(alloc: Global, rank: usize) -> Result<Facts, AllocError>
    ensures { IfOk result (λ made. made ≡ spec.for_each_dimension rank) }
{
    let mut extents = Items::new(alloc);
    extents.push(Some(rank as u64))?;
    Ok(Facts {
        kind: Kind::Int,
        length: None,
        extents,
    })
}

fn by_dimension(alloc: Global, dim: Option<u8>, gs: &[Given]) -> Result<Facts, AllocError>
    ensures { IfOk result (λ made. made ≡ spec.by_dimension dim (spec.at 0 gs.now)) }
{
    match dim {
        None => for_each_dimension(alloc, rank_at(0, gs)),
        Some(_) => Ok(scalar_of(alloc, Kind::Int)),
    }
}

pub fn answer(
    alloc: Global,
    which: Inquiry,
    dim: Option<u8>,
    gs: &[Given],
) -> Result<Facts, AllocError>
    ensures { IfOk result (λ made. made ≡ spec.answer which dim gs.now) }
{
    match which {
        Inquiry::Size | Inquiry::Len => Ok(scalar_of(alloc, Kind::Int)),
        Inquiry::Shape => by_dimension(alloc, None, gs),
        Inquiry::Lbound | Inquiry::Ubound => by_dimension(alloc, dim, gs),
        Inquiry::Allocated => Ok(scalar_of(alloc, Kind::Log)),
    }
}
