//! One dimension of a section: the subscripts that a triplet names.
ghost use Rattle.std.specs.Prelude.{◌≡◌, ◌≢◌, ◌<◌, ◌≤ℤ◌, ◌<ℤ◌, ◌+ℤ◌, ◌↔◌, ◌^◌, pos, unsigned_abs, IsTrue};
ghost use Rattle.a95_base.specs.IntegerLaws.{IsInteger};
ghost use Rattle.a95_base.specs.Lists.{Every};
ghost use Rattle.section_algebra.specs.Ascent.{IsAscent, Ascends};
ghost use Rattle.section_algebra.specs.Section.{term_of, subscripts_of, triplet_count, IsProgression, Share};

use crate::ascent::{Ascent, crosses};
use std::marker::Model;

/// Subscripts with one stride. Contracts see the progression.
#[derive(Clone, Copy)]
pub(crate) struct Triplet {
    start: i64,
    stride: i64,
    count: i64,
}

impl Model for Triplet {
    ghost use Rattle.std.specs.Prelude.{pos, unsigned_abs, ◌≤ℤ◌};
    ghost use Rattle.std.proofs.Common.{ap};
    ghost use Rattle.rank_shape.specs.Fields.{natural_is};
    ghost use Rattle.section_algebra.specs.Section.{Progression, IsProgression};

    ghost Value = { Progression };

    ghost view = { λ t. record { start = t.start; stride = t.stride; count = unsigned_abs t.count } };

    ghost invariant = { λ t.
        (pos 0 ≤ℤ t.count) × IsProgression (record { start = t.start; stride = t.stride; count = unsigned_abs t.count }) };

    ghost inverse = { λ p. record { start = p.start; stride = p.stride; count = pos p.count } };

    ghost inverse_ok = { λ t holds.
        ap (λ count. record { start = t.start; stride = t.stride; count = count }) (natural_is t.count holds.0) };
}

impl Triplet {
    pub(crate) fn new(start: i64, stride: i64, count: i64) -> Triplet
        requires natural { pos 0 ≤ℤ count }
        requires progression { IsProgression (record { start = start; stride = stride; count = unsigned_abs count }) }
        ensures { result ≡ record { start = start; stride = stride; count = unsigned_abs count } }
    {
        Triplet {
            start,
            stride,
            count,
        }
    }

    pub(crate) fn count(&self) -> i64
        ensures { result ≡ pos self.now.count }
    {
        self.count
    }

    pub(crate) fn stride(&self) -> i64
        ensures { result ≡ self.now.stride }
    {
        self.stride
    }

    /// The subscript at this turn, counted from 0.
    pub(crate) fn subscript(&self, turn: i64) -> i64
        requires natural { pos 0 ≤ℤ turn }
        requires below { unsigned_abs turn < self.now.count }
        ensures subscript { result ≡ term_of self.now (unsigned_abs turn) }
        ensures fits { IsInteger result }
    {
        self.start + turn * self.stride
    }

    /// Whether each subscript lies from `lower` to `upper`: the first and the last do.
    pub(crate) fn is_within(&self, lower: i64, upper: i64) -> bool
        requires { 0 < self.now.count }
        ensures { IsTrue result ↔ Every (λ z. (lower ≤ℤ z) × (z ≤ℤ upper)) (subscripts_of self.now) }
    {
        let last = self.subscript(self.count - 1);
        if !is_between(lower, self.start, upper) {
            return false;
        }
        is_between(lower, last, upper)
    }

    /// Whether some subscript is one of the other's.
    pub(crate) fn shares(&self, other: &Triplet) -> bool
        ensures { IsTrue result ↔ Share self.now other.now }
    {
        if self.count == 0 {
            return false;
        }
        if other.count == 0 {
            return false;
        }
        let ascent = self.ascending();
        let other_ascent = other.ascending();
        if ascent.step < other_ascent.step {
            return crosses(&other_ascent, &ascent);
        }
        crosses(&ascent, &other_ascent)
    }

    // The subscripts from the least on, as numbers from -2^31 on.
    fn ascending(&self) -> Ascent
        requires { 0 < self.now.count }
        ensures ascends { Ascends self.now result.first result.step }
        ensures count { result.count ≡ self.now.count }
        ensures small { IsAscent result.first result.step result.count }
    {
        let count = self.count as u64;
        if self.stride > 0 {
            return Ascent {
                first: from_least(self.start),
                step: self.stride as u64,
                count,
            };
        }
        Ascent {
            first: from_least(self.subscript(self.count - 1)),
            step: self.stride.unsigned_abs(),
            count,
        }
    }
}

/// How many subscripts the triplet has.
pub fn triplet_count(first: i64, last: i64, stride: i64) -> i64
    requires first { IsInteger first }
    requires last { IsInteger last }
    requires stride { IsInteger stride }
    requires steps { stride ≢ pos 0 }
    ensures { result ≡ pos (triplet_count first last stride) }
{
    ((last - first + stride) / stride).max(0)
}

fn is_between(lower: i64, subscript: i64, upper: i64) -> bool
    ensures { IsTrue result ↔ ((lower ≤ℤ subscript) × (subscript ≤ℤ upper)) }
{
    lower <= subscript && subscript <= upper
}

// How far above the least INTEGER it is.
fn from_least(subscript: i64) -> u64
    requires { IsInteger subscript }
    ensures number { subscript +ℤ pos 2147483648 ≡ pos result }
    ensures small { result < 2 ^ 32 }
{
    (subscript + (1 << 31)) as u64
}
