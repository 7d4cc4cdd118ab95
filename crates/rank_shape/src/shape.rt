//! Shapes, places and their numbers.
ghost use Rattle.std.specs.Prelude.{◌≡◌, pos, min, ◌+◌, ◌<◌, ◌≤◌, ◌<ℤ◌, ◌≤ℤ◌, ◌↔◌, length, map, unsigned_abs, slice_index, IsSome};
ghost use Rattle.std.specs.Prelude.{IfSome};
ghost use Rattle.a95_base.specs.Limits.{most_elements};
ghost use Rattle.rank_shape.specs.Shape.{IsRank, AreNatural, naturals, size_of, IsShape, IsPlace, number_of, place_at};

use a95_base::MOST_ELEMENTS;
use std::marker::Model;

/// The most places that a shape may have.
const MOST_PLACES: u64 = MOST_ELEMENTS as u64;

/// The extents of an array of rank `R`, the first dimension first. Contracts see the list of extents.
#[derive(Clone, Copy, Debug, PartialEq, Eq)]
pub struct Shape<const R: usize> {
    extents: [i64; R],
}

impl<const R: usize> Model for Shape<R> {
    ghost use Rattle.std.specs.Prelude.{List, ℕ, map, pos};
    ghost use Rattle.std.proofs.Common.{ap};
    ghost use Rattle.rank_shape.specs.Shape.{AreNatural, IsShape, naturals};
    ghost use Rattle.rank_shape.specs.Fields.{pos_naturals};

    ghost Value = { List ℕ };

    ghost view = { λ shape. naturals shape.extents };

    ghost invariant = { λ shape. AreNatural shape.extents × IsShape R (naturals shape.extents) };

    ghost inverse = { λ extents. record { extents = map pos extents } };

    ghost inverse_ok = { λ shape holds. ap (λ extents. record { extents = extents }) (pos_naturals shape.extents holds.0) };
}

/// A place of an array of rank `R`: a subscript for each dimension, counted from 0.
#[derive(Clone, Copy, Debug, PartialEq, Eq)]
pub struct Place<const R: usize> {
    pub at: [i64; R],
}

impl<const R: usize> Shape<R> {
    /// The shape with these extents, or None where it would have more than 2^24 places.
    pub fn new(extents: [i64; R]) -> Option<Shape<R>>
        requires ranked { IsRank R }
        requires natural { AreNatural extents }
        ensures small { IsSome result ↔ (size_of (naturals extents.entry) ≤ most_elements) }
        ensures shape { IfSome result (λ shape. shape ≡ naturals extents.entry) }
    {
        if capped_size(&extents) > MOST_PLACES {
            return None;
        }
        Some(Shape { extents })
    }

    /// How many dimensions there are.
    pub fn rank(&self) -> usize
        ensures rank { result ≡ R }
        ensures extents { result ≡ length self.now }
    {
        self.known();
        R
    }

    /// How far the dimension reaches; the first has the number 0.
    pub fn extent(&self, dim: usize) -> i64
        requires { dim < R }
        ensures { result ≡ pos (slice_index self.now dim) }
    {
        self.extents[dim]
    }

    pub(crate) fn natural_extent(&self, dim: usize) -> u64
        requires { dim < R }
        ensures { result ≡ slice_index self.now dim }
    {
        natural_at(&self.extents, dim)
    }

    /// How many places there are.
    pub fn size(&self) -> i64
        ensures { result ≡ pos (size_of self.now) }
    {
        capped_size(&self.extents) as i64
    }

    /// The number of a place in array element order, counted from 0.
    #[tactic(auto, using(crate::proofs::Numbers::numbers))]
    pub fn rank_of(&self, place: &Place<R>) -> i64
        requires natural { AreNatural place.now.at }
        requires within { IsPlace self.now (naturals place.now.at) }
        ensures number { result ≡ pos (number_of self.now (naturals place.now.at)) }
        ensures below { number_of self.now (naturals place.now.at) < size_of self.now }
        ensures back { place_at self.now (number_of self.now (naturals place.now.at)) ≡ naturals place.now.at }
    {
        number_in(&self.extents, &place.at) as i64
    }

    /// The place that has this number in array element order.
    #[tactic(auto, using(crate::proofs::Numbers::numbers))]
    pub fn place_of(&self, number: i64) -> Place<R>
        requires natural { pos 0 ≤ℤ number }
        requires below { number <ℤ pos (size_of self.now) }
        ensures place { result.at ≡ map pos (place_at self.now (unsigned_abs number)) }
        ensures within { IsPlace self.now (place_at self.now (unsigned_abs number)) }
        ensures back { number_of self.now (place_at self.now (unsigned_abs number)) ≡ unsigned_abs number }
    {
        Place {
            at: place_in(&self.extents, number.unsigned_abs()),
        }
    }

    /// What every shape keeps, for callers that see its extents alone.
    pub fn known(&self)
        ensures { IsShape R self.now }
    {
        let _ = &self.extents;
    }
}

fn natural_at<const R: usize>(numbers: &[i64; R], k: usize) -> u64
    requires { k < R }
    ensures { result ≡ slice_index (naturals numbers.now) k }
{
    numbers[k].unsigned_abs()
}

// The number of places, or one past the limit where it is past the limit: a later extent of 0 still makes it 0.
fn capped_size<const R: usize>(extents: &[i64; R]) -> u64
    ensures { result ≡ min (size_of (naturals extents.now)) (most_elements + 1) }
{
    let mut size = 1u64;
    for k in 0..R {
        size = size
            .saturating_mul(natural_at(extents, k))
            .min(MOST_PLACES + 1);
    }
    size
}

#[tactic(auto, using(crate::proofs::Numbers::number_below))]
fn number_in<const R: usize>(extents: &[i64; R], at: &[i64; R]) -> u64
    requires within { IsPlace (naturals extents.now) (naturals at.now) }
    requires small { size_of (naturals extents.now) ≤ most_elements }
    ensures number { result ≡ number_of (naturals extents.now) (naturals at.now) }
    ensures below { result < size_of (naturals extents.now) }
{
    let mut number = 0u64;
    for k in (0..R).rev() {
        number = natural_at(at, k) + natural_at(extents, k) * number;
    }
    number
}

fn place_in<const R: usize>(extents: &[i64; R], number: u64) -> [i64; R]
    requires below { number < size_of (naturals extents.now) }
    requires small { size_of (naturals extents.now) ≤ most_elements }
    ensures { result ≡ map pos (place_at (naturals extents.now) number) }
{
    let mut at = [0i64; R];
    let mut left = number;
    for k in 0..R {
        let extent = natural_at(extents, k);
        at[k] = (left % extent) as i64;
        left /= extent;
    }
    at
}
