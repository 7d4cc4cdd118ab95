//! Arguments by their places, and what each is.
ghost use Rattle.std.specs.Prelude.{◌≡◌, ◌&&◌, ◌||◌, not, option_map};
ghost use Rattle.std.specs.List.{list_any};
ghost use Rattle.well_typed.specs.declared.known.Given.{Given};
ghost use Rattle.well_typed.specs.Intrinsics as spec;
ghost use Rattle.well_typed.specs.Shapes.{rank, is_of, is_scalar, is_array, is_scalar_of, is_array_of, is_vector_of};

use a95_base::Kind;
use constant_operators::is_kind;
use typed_facts::Extent;
use well_typed::Given;

pub fn given_at(place: usize, gs: &[Given]) -> Option<&Given>
    ensures { option_map (λ g. g.now) result ≡ spec.given_at place gs.now }
{
    for g in gs {
        if g.place == place {
            return Some(g);
        }
    }
    None
}

pub fn is_given(place: usize, gs: &[Given]) -> bool
    ensures { result ≡ spec.is_given place gs.now }
{
    given_at(place, gs).is_some()
}

/// The kind of an argument.
pub fn kind_at(place: usize, gs: &[Given]) -> Kind
    ensures { result ≡ (spec.at place gs.now).kind }
{
    match given_at(place, gs) {
        None => Kind::Int,
        Some(g) => g.facts.kind,
    }
}

/// The extents of an argument.
pub fn extents_at(place: usize, gs: &[Given]) -> &[Extent]
    ensures { result.now ≡ (spec.at place gs.now).extents }
{
    match given_at(place, gs) {
        None => &[],
        Some(g) => g.facts.extents.as_slice(),
    }
}

pub fn rank_at(place: usize, gs: &[Given]) -> usize
    ensures { result ≡ rank (spec.at place gs.now) }
{
    extents_at(place, gs).len()
}

pub fn is_of_at(kind: Kind, place: usize, gs: &[Given]) -> bool
    ensures { result ≡ is_of kind (spec.at place gs.now) }
{
    is_kind(kind, kind_at(place, gs))
}

pub fn is_scalar_at(place: usize, gs: &[Given]) -> bool
    ensures { result ≡ is_scalar (spec.at place gs.now) }
{
    rank_at(place, gs) == 0
}

pub fn is_array_at(place: usize, gs: &[Given]) -> bool
    ensures { result ≡ is_array (spec.at place gs.now) }
{
    0 < rank_at(place, gs)
}

pub fn is_scalar_of_at(kind: Kind, place: usize, gs: &[Given]) -> bool
    ensures { result ≡ is_scalar_of kind (spec.at place gs.now) }
{
    is_of_at(kind, place, gs) && is_scalar_at(place, gs)
}

pub fn is_array_of_at(kind: Kind, place: usize, gs: &[Given]) -> bool
    ensures { result ≡ is_array_of kind (spec.at place gs.now) }
{
    is_of_at(kind, place, gs) && is_array_at(place, gs)
}

pub fn is_vector_of_at(kind: Kind, place: usize, gs: &[Given]) -> bool
    ensures { result ≡ is_vector_of kind (spec.at place gs.now) }
{
    is_of_at(kind, place, gs) && rank_at(place, gs) == 1
}

/// INTEGER or LOGICAL.
pub fn is_no_text_at(place: usize, gs: &[Given]) -> bool
    ensures { result ≡ spec.is_no_text (spec.at place gs.now) }
{
    !is_of_at(Kind::Text, place, gs)
}

/// Both have one kind.
pub fn are_alike(place: usize, other: usize, gs: &[Given]) -> bool
    ensures { result ≡ spec.is_like (spec.at place gs.now) (spec.at other gs.now) }
{
    is_kind(kind_at(place, gs), kind_at(other, gs))
}

/// DIM is from 1 to the rank, or absent.
pub fn dim_fits(dim: Option<u8>, rank: usize) -> bool
    ensures { result ≡ spec.dim_fits dim rank }
{
    match dim {
        None => true,
        Some(d) => 1 <= d && usize::from(d) <= rank,
    }
}

/// A LOGICAL mask of the rank of an argument, or a scalar.
pub fn is_mask_at(mask: usize, place: usize, gs: &[Given]) -> bool
    ensures { result ≡ spec.is_mask_for (spec.at place gs.now) (spec.at mask gs.now) }
{
    is_of_at(Kind::Log, mask, gs)
        && (is_scalar_at(mask, gs) || rank_at(mask, gs) == rank_at(place, gs))
}

/// The same, where the mask is given.
pub fn may_be_mask_at(mask: usize, place: usize, gs: &[Given]) -> bool
    ensures { result ≡ spec.where_given mask gs.now (spec.is_mask_for (spec.at place gs.now)) }
{
    !is_given(mask, gs) || is_mask_at(mask, place, gs)
}
