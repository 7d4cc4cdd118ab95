//! Stores, masks, indices, allocation and input.
ghost use Rattle.std.specs.Prelude.{◌≡◌, ◌+◌, ◌&&◌, ◌||◌, nat_lt, option_map};
ghost use Rattle.std.specs.List.{list_any};
ghost use Rattle.proc_calls.specs.View.{access_of, part_of};
ghost use Rattle.well_typed.specs.Questions.{Stores, Allocates, Frees, Masks, Fills, Ranges, Targets, Takes};
ghost use Rattle.well_typed.specs.Rules as spec;
ghost use Rattle.type_rules.specs.Told.{told};

use crate::operands::{only_where, then_extents};
use a95_base::{Kind, Rule};
use f95_unit::{Access, Facts, Part};
use typed_facts::{Extent, differ, is_array_of, is_of, is_scalar, rank};
use well_typed::Variable;

fn may_change(v: Option<&Variable>) -> bool
    ensures { result ≡ spec.may_change (option_map (λ x. x.now) v.entry) }
{
    match v {
        None => false,
        Some(v) => !v.input,
    }
}

/// A store into a variable, which may be that of a DO around.
pub fn stores(v: Option<&Variable>, of_do: bool) -> Option<Rule>
    ensures { told result ≡ spec.rule_of (Stores (option_map (λ x. x.now) v.entry) of_do) }
{
    only_where(of_do || !may_change(v), Rule::WRONG_STORE)
}

fn is_allocatable(v: Option<&Variable>) -> bool
    ensures { result ≡ spec.is_allocatable (option_map (λ x. x.now) v.entry) }
{
    match v {
        None => false,
        Some(v) => v.allocatable,
    }
}

fn has_rank(rank: usize, v: Option<&Variable>) -> bool
    ensures { result ≡ spec.has_rank rank (option_map (λ x. x.now) v.entry) }
{
    match v {
        None => false,
        Some(v) => v.dims.len() == rank,
    }
}

/// ALLOCATE of a variable with so many bounds.
pub fn allocates(v: Option<&Variable>, bounds: usize) -> Option<Rule>
    ensures { told result ≡ spec.rule_of (Allocates (option_map (λ x. x.now) v.entry) bounds) }
{
    only_where(
        !(is_allocatable(v) && has_rank(bounds, v)),
        Rule::WRONG_DESIGNATOR,
    )
}

/// DEALLOCATE of a variable.
pub fn frees(v: Option<&Variable>) -> Option<Rule>
    ensures { told result ≡ spec.rule_of (Frees (option_map (λ x. x.now) v.entry)) }
{
    only_where(!is_allocatable(v), Rule::WRONG_DESIGNATOR)
}

fn has_rank_around(around: Option<&[Extent]>, f: &Facts) -> bool
    ensures { result ≡ spec.has_rank_around (option_map (λ x. x.now) around.entry) f.now }
{
    match around {
        None => true,
        Some(extents) => extents.len() == rank(f),
    }
}

fn differs_from(around: Option<&[Extent]>, extents: &[Extent]) -> bool
    ensures { result ≡ spec.differs_from (option_map (λ x. x.now) around.entry) extents.now }
{
    match around {
        None => false,
        Some(around) => differ(around, extents),
    }
}

/// A mask, in masks of that shape.
#[tactic(auto, using(crate::proofs::Orders::mask_first))]
pub fn masks(around: Option<&[Extent]>, f: &Facts) -> Option<Rule>
    ensures { told result ≡ spec.rule_of (Masks (option_map (λ x. x.now) around.entry) f.now) }
{
    let fit = is_array_of(Kind::Log, f) && has_rank_around(around, f);
    then_extents(
        Rule::WRONG_MASK,
        fit,
        differs_from(around, f.extents.as_slice()),
    )
}

/// A target, under masks of that shape.
#[tactic(auto, using(crate::proofs::Orders::extents_first))]
pub fn fills(around: Option<&[Extent]>, f: &Facts) -> Option<Rule>
    ensures { told result ≡ spec.rule_of (Fills (option_map (λ x. x.now) around.entry) f.now) }
{
    let fit = has_rank_around(around, f);
    then_extents(
        Rule::WRONG_MASK,
        fit,
        differs_from(around, f.extents.as_slice()),
    )
}

fn some_below(named: &[usize], indices: usize) -> bool
    ensures { result ≡ list_any (λ k. nat_lt k indices) named.now }
{
    for k in named {
        if *k < indices {
            return true;
        }
    }
    false
}

/// Triplets that name these indices, in a FORALL of so many.
pub fn ranges(named: &[usize], indices: usize) -> Option<Rule>
    ensures { told result ≡ spec.rule_of (Ranges named.now indices) }
{
    only_where(some_below(named, indices), Rule::WRONG_FORALL)
}

fn is_cut(part: &Part) -> bool
    ensures { result ≡ spec.is_cut (part_of part.now) }
{
    match part {
        Part::All => false,
        Part::Bytes(..) => true,
    }
}

fn is_whole(access: &Access) -> bool
    ensures { result ≡ spec.is_whole (access_of access.now) }
{
    match access {
        Access::Whole => true,
        Access::At(_) => false,
    }
}

/// Indices and rank together exceed 7.
#[tactic(auto, using(crate::proofs::Orders::rank_is_many))]
fn are_many(indices: u8, rank: usize) -> bool
    ensures { result ≡ nat_lt 7 (indices + rank) }
{
    if rank > 7 {
        true
    } else {
        7 < usize::from(indices) + rank
    }
}

/// A target in a FORALL of so many indices.
pub fn targets(indices: u8, f: &Facts, access: &Access, part: &Part) -> Option<Rule>
    ensures { told result ≡ spec.rule_of (Targets indices f.now (access_of access.now) (part_of part.now)) }
{
    let many = are_many(indices, rank(f));
    only_where(
        many || is_cut(part) || is_whole(access) && is_scalar(f),
        Rule::WRONG_FORALL,
    )
}

/// An item of READ.
pub fn takes(f: &Facts) -> Option<Rule>
    ensures { told result ≡ spec.rule_of (Takes f.now) }
{
    only_where(!is_of(Kind::Int, f), Rule::WRONG_READ_ITEM)
}
