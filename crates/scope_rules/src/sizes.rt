//! Shapes with more elements than an array may have.
ghost use Rattle.std.specs.Prelude.{◌≡◌, ◌*◌, map, IfOk, Some};
ghost use Rattle.names_types.specs.Rules.{bound_in, integer_in, extent_between, constant_extent, constant_size, is_too_large};
ghost use Rattle.names_types.specs.Scopes.{worth_in};
ghost use Rattle.names_types.specs.View.{expr_of, dim_of};
ghost use Rattle.known_scopes.specs.View.{senses_of};
ghost use Rattle.scope_rules.specs.Sites.{senses_at};
ghost use Rattle.scope_rules.specs.Sizes.{capped, capped_size};

use a95_base::{MOST_ELEMENTS, Scalar};
use constant_operators::{Valued, Worth};
use constant_values::valued;
use f95_tree::{Dim, Expression};
use known_scopes::{Known, constant_senses};
use scope_names::ConstantSenses;
use std::alloc::{AllocError, Global};

fn integer_in(worth: &Worth) -> Option<i32>
    ensures { result ≡ integer_in worth.now }
{
    match worth {
        Worth::Is(Scalar::Int(z)) => Some(*z),
        Worth::Is(Scalar::Log(_)) => None,
        Worth::Is(Scalar::Text(_)) => None,
        Worth::Spoilt => None,
        Worth::Unknown => None,
    }
}

fn value_of(valued: &Option<Valued>) -> Option<i32>
    ensures { result ≡ integer_in (worth_in valued.now) }
{
    match valued {
        None => None,
        Some(valued) => integer_in(&valued.worth),
    }
}

fn bound_in(
    alloc: Global,
    senses: &ConstantSenses<'_>,
    e: &Expression,
) -> Result<Option<i32>, AllocError>
    ensures { IfOk result (λ z. z ≡ bound_in (senses_of senses.now) (expr_of e.now)) }
{
    let value = valued(alloc, senses, e)?;
    let bound = value_of(&value);
    drop(value);
    Ok(bound)
}

fn extent(lower: i32, upper: i32) -> u64
    ensures { Some result ≡ extent_between (Some lower) (Some upper) }
{
    if upper < lower {
        0
    } else {
        (i64::from(upper) - i64::from(lower) + 1).unsigned_abs()
    }
}

fn extent_between(lower: Option<i32>, upper: Option<i32>) -> Option<u64>
    ensures { result ≡ extent_between lower upper }
{
    match lower {
        None => None,
        Some(lower) => match upper {
            None => None,
            Some(upper) => Some(extent(lower, upper)),
        },
    }
}

fn constant_extent(
    alloc: Global,
    senses: &ConstantSenses<'_>,
    dim: &Dim,
) -> Result<Option<u64>, AllocError>
    ensures { IfOk result (λ n. n ≡ constant_extent (senses_of senses.now) (dim_of dim.now)) }
{
    match dim {
        Dim::Upper(upper) => {
            let upper = bound_in(alloc, senses, upper)?;
            Ok(extent_between(Some(1), upper))
        }
        Dim::Both(lower, upper) => {
            let lower = bound_in(alloc, senses, lower)?;
            let upper = bound_in(alloc, senses, upper)?;
            Ok(extent_between(lower, upper))
        }
        Dim::Lower(_) => Ok(None),
        Dim::Deferred => Ok(None),
    }
}

fn cap(n: u64) -> u64
    ensures { result ≡ capped n }
{
    n.min(u64::from(MOST_ELEMENTS) + 1)
}

/// So many times that, as far as it counts.
#[tactic(auto, using(crate::proofs::Caps::product_fits, crate::proofs::Caps::capped_product))]
fn capped_product(known: u64, extent: u64) -> u64
    ensures { result ≡ capped (known * extent) }
{
    cap(cap(known) * cap(extent))
}

/// The number of elements, as far as it counts, where all bounds are constant and none is spoilt.
fn size(alloc: Global, senses: &ConstantSenses<'_>, dims: &[Dim]) -> Result<Option<u64>, AllocError>
    ensures { IfOk result (λ n. n ≡ capped_size (constant_size (senses_of senses.now) (map dim_of dims.now))) }
{
    let mut known = 1;
    for dim in dims {
        match constant_extent(alloc, senses, dim)? {
            None => return Ok(None),
            Some(extent) => known = capped_product(known, extent),
        }
    }
    Ok(Some(cap(known)))
}

fn is_too_large(size: Option<u64>) -> bool
    ensures { result ≡ is_too_large size }
{
    match size {
        None => false,
        Some(size) => size > u64::from(MOST_ELEMENTS),
    }
}

/// Whether a shape that is constant has more elements than an array may have.
#[tactic(auto, using(crate::proofs::Caps::capped_too_large))]
pub fn shape_too_large(
    alloc: Global,
    known: &Known<'_>,
    place: usize,
    dims: &[Dim],
) -> Result<bool, AllocError>
    ensures { IfOk result (λ b. b ≡ is_too_large (constant_size (senses_at known.now.scope place) (map dim_of dims.now))) }
{
    let senses = constant_senses(known, place);
    let size = size(alloc, &senses, dims)?;
    Ok(is_too_large(size))
}
