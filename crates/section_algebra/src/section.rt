//! Sections of arrays.
ghost use Rattle.std.specs.Prelude.{◌≡◌, ◌≢◌, ◌<◌, ◌≤ℤ◌, ◌↔◌, ◌&&◌, true, nat_eq, [], pos, unsigned_abs, length, map, replicate, slice_index, slice_index_or, IsTrue, IsSome, IfSome};
ghost use Rattle.a95_base.specs.Lists.{Every, Pairwise};
ghost use Rattle.rank_shape.specs.Shape.{IsRank, AreNatural, naturals, size_of, IsPlace, number_of};
ghost use Rattle.section_algebra.specs.Dimensions.{EachWithin, GoesOn, RunsOn};
ghost use Rattle.section_algebra.specs.Section.{AreIntegers, triplets, counts_of, places_of, place_named, progression_at, IsWithin, Meet, numbers_in, IsConsecutive, IsSection};

use crate::triplet::{Triplet, triplet_count};
use rank_shape::{Place, Shape};
use std::marker::Model;

/// The section of an array of rank `R` that a triplet for each dimension names. Contracts see a progression for each
/// dimension, the first dimension first.
#[derive(Clone, Copy)]
pub struct Section<const R: usize> {
    start: [i64; R],
    stride: [i64; R],
    count: [i64; R],
}

impl<const R: usize> Model for Section<R> {
    ghost use Rattle.std.specs.Prelude.{◌≡◌, List};
    ghost use Rattle.std.proofs.Common.{ap, ◌∙◌};
    ghost use Rattle.rank_shape.specs.Shape.{naturals};
    ghost use Rattle.section_algebra.specs.Section.{Progression};
    ghost use Rattle.section_algebra.specs.Fields.{progressions, SectionFields, starts_of, strides_of, whole_counts_of, starts_back, strides_back, counts_back};

    ghost Value = { List Progression };

    ghost view = { λ s. progressions s.start s.stride (naturals s.count) };

    ghost invariant = { λ s. SectionFields R s.start s.stride s.count };

    ghost inverse = { λ section.
        record { start = starts_of section; stride = strides_of section; count = whole_counts_of section } };

    ghost inverse_ok = { λ s holds.
        let section = progressions s.start s.stride (naturals s.count) in
        ap (λ start. record { start = start; stride = strides_of section; count = whole_counts_of section })
        (starts_back R s.start s.stride s.count holds.start_long holds.stride_long holds.count_long)
        ∙ ap (λ stride. record { start = s.start; stride = stride; count = whole_counts_of section })
        (strides_back R s.start s.stride s.count holds.start_long holds.stride_long holds.count_long)
        ∙ ap (λ count. record { start = s.start; stride = s.stride; count = count })
        (counts_back R s.start s.stride s.count holds.natural holds.start_long holds.stride_long holds.count_long) };
}

impl<const R: usize> Section<R> {
    /// The section `(lower:upper:stride, ..)`, or None exactly where a stride is 0.
    pub fn new(lower: [i64; R], upper: [i64; R], stride: [i64; R]) -> Option<Section<R>>
        requires ranked { IsRank R }
        requires lower { AreIntegers lower }
        requires upper { AreIntegers upper }
        requires stride { AreIntegers stride }
        ensures steps { IsSome result ↔ Every (λ s. s ≢ pos 0) stride.entry }
        ensures section { IfSome result (λ section. section ≡ triplets lower.entry upper.entry stride.entry) }
    {
        let mut count = [0i64; R];
        for dim in 0..R {
            if stride[dim] == 0 {
                return None;
            }
            count[dim] = triplet_count(lower[dim], upper[dim], stride[dim]);
        }
        Some(Section {
            start: lower,
            stride,
            count,
        })
    }

    /// How many subscripts are named in the dimension; the first has the number 0.
    pub fn count(&self, dim: usize) -> i64
        requires { dim < R }
        ensures { result ≡ pos (slice_index (counts_of self.now) dim) }
    {
        let triplet = self.triplet_at(dim);
        triplet.count()
    }

    /// The place that is named at these turns of the dimensions, counted from 0.
    pub fn place(&self, at: &Place<R>) -> Place<R>
        requires natural { AreNatural at.now.at }
        requires within { IsPlace (counts_of self.now) (naturals at.now.at) }
        ensures named { result.at ≡ place_named self.now (naturals at.now.at) }
        ensures listed { result.at ≡ slice_index_or (places_of self.now) (number_of (counts_of self.now) (naturals at.now.at)) [] }
    {
        self.known();
        let mut named = [0i64; R];
        for dim in 0..R {
            let triplet = self.triplet_at(dim);
            named[dim] = triplet.subscript(at.at[dim]);
        }
        Place { at: named }
    }

    /// Whether every place that is named lies within the bounds.
    pub fn within(&self, lower: &[i64; R], upper: &[i64; R]) -> bool
        ensures { IsTrue result ↔ Every (IsWithin lower.now upper.now) (places_of self.now) }
    {
        self.known();
        if self.is_empty() {
            return true;
        }
        self.each_within(lower, upper)
    }

    /// Whether some place is in both.
    pub fn meets(&self, other: &Section<R>) -> bool
        ensures { IsTrue result ↔ Meet self.now other.now }
    {
        self.known();
        other.known();
        for dim in 0..R {
            let triplet = self.triplet_at(dim);
            let other_triplet = other.triplet_at(dim);
            if !triplet.shares(&other_triplet) {
                return false;
            }
        }
        true
    }

    /// Whether the places are consecutive in array element order, each the next of the one before it, in an array of this
    /// shape whose lower bounds are 1.
    pub fn is_contiguous(&self, whole: &Shape<R>) -> bool
        requires { Every (IsWithin (replicate R (pos 1)) (map pos whole.now)) (places_of self.now) }
        ensures { IsTrue result ↔ IsConsecutive (numbers_in whole.now self.now) }
    {
        self.known();
        whole.known();
        if self.is_empty() {
            return true;
        }
        self.runs_on(whole)
    }

    /// What every section keeps: its places are distinct, and as many as its counts say.
    pub fn known(&self)
        ensures section { IsSection R self.now }
        ensures once { Pairwise (λ place later. place ≢ later) (places_of self.now) }
        ensures size { length (places_of self.now) ≡ size_of (counts_of self.now) }
    {
        let _ = &self.start;
    }

    /// The law of sections within a shape: the places have numbers below its size, each another.
    pub fn known_in(&self, whole: &Shape<R>)
        requires { Every (IsWithin (replicate R (pos 1)) (map pos whole.now)) (places_of self.now) }
        ensures below { Every (λ number. number < size_of whole.now) (numbers_in whole.now self.now) }
        ensures once { Pairwise (λ number later. number ≢ later) (numbers_in whole.now self.now) }
    {
        self.known();
        whole.known();
    }

    fn triplet_at(&self, dim: usize) -> Triplet
        requires { dim < R }
        ensures { result ≡ progression_at self.now dim }
    {
        Triplet::new(self.start[dim], self.stride[dim], self.count[dim])
    }

    // Whether no place is named.
    fn is_empty(&self) -> bool
        ensures { IsTrue result ↔ (size_of (counts_of self.now) ≡ 0) }
    {
        self.known();
        for dim in 0..R {
            if self.count(dim) == 0 {
                return true;
            }
        }
        false
    }

    // Whether the subscripts of each dimension lie within its bounds.
    fn each_within(&self, lower: &[i64; R], upper: &[i64; R]) -> bool
        requires some { size_of (counts_of self.now) ≢ 0 }
        ensures { IsTrue result ↔ EachWithin lower.now upper.now self.now }
    {
        self.known();
        for dim in 0..R {
            let triplet = self.triplet_at(dim);
            if !triplet.is_within(lower[dim], upper[dim]) {
                return false;
            }
        }
        true
    }

    // Whether subscripts rise by one, and one alone is named after a dimension that isn't covered whole.
    fn runs_on(&self, whole: &Shape<R>) -> bool
        ensures { IsTrue result ↔ RunsOn true self.now whole.now }
    {
        self.known();
        whole.known();
        let mut full = true;
        for dim in 0..R {
            let triplet = self.triplet_at(dim);
            if !goes_on(full, &triplet) {
                return false;
            }
            full = covers(full, triplet.count(), whole.extent(dim));
        }
        true
    }
}

// Whether the dimension may stand so, where all before it are covered whole or not.
fn goes_on(full: bool, triplet: &Triplet) -> bool
    ensures { IsTrue result ↔ GoesOn full triplet.now }
{
    if triplet.count() <= 1 {
        return true;
    }
    full && triplet.stride() == 1
}

fn covers(full: bool, count: i64, extent: i64) -> bool
    requires count { pos 0 ≤ℤ count }
    requires extent { pos 0 ≤ℤ extent }
    ensures { result ≡ (full && nat_eq (unsigned_abs count) (unsigned_abs extent)) }
{
    full && count == extent
}
