//! Subscripts, substrings, constructors, and arguments of functions.
ghost use Rattle.std.specs.Prelude.{◌≡◌, ◌&&◌, ◌||◌, not, IfOk};
ghost use Rattle.std.specs.List.{list_all};
ghost use Rattle.well_typed.specs.Questions.{Subscripts, Cuts, Gathers, Refers, Misrefers, Spreads};
ghost use Rattle.well_typed.specs.Rules as spec;
ghost use Rattle.type_rules.specs.Told.{told};

use crate::operands::{only_where, then_extents};
use a95_base::{Kind, Rule};
use constant_operators::is_kind;
use f95_unit::Facts;
use intrinsic_facts::{has_others, takes};
use sqlite_items::Items;
use std::alloc::{AllocError, Global};
use typed_facts::{Extent, is_of, is_scalar_of, is_vector_of, some_differ};
use well_typed::{Family, Given, Listed};

fn is_subscript(listed: &Listed) -> bool
    ensures { result ≡ spec.is_subscript listed.now }
{
    match listed {
        Listed::Plain(f) => is_scalar_of(Kind::Int, f) || is_vector_of(Kind::Int, f),
        Listed::Ranged => true,
        Listed::Keyed => false,
    }
}

fn all_are_subscripts(items: &[Listed]) -> bool
    ensures { result ≡ list_all spec.is_subscript items.now }
{
    for item in items {
        if !is_subscript(item) {
            return false;
        }
    }
    true
}

/// A name of that rank with items in brackets.
pub fn subscripts(rank: usize, items: &[Listed]) -> Option<Rule>
    ensures { told result ≡ spec.rule_of (Subscripts rank items.now) }
{
    only_where(
        rank == 0 || items.len() != rank || !all_are_subscripts(items),
        Rule::WRONG_DESIGNATOR,
    )
}

fn is_text(kind: Option<Kind>) -> bool
    ensures { result ≡ spec.is_text kind }
{
    match kind {
        None => false,
        Some(kind) => is_kind(Kind::Text, kind),
    }
}

/// A substring of a variable of that kind, or of something else.
pub fn cuts(kind: Option<Kind>) -> Option<Rule>
    ensures { told result ≡ spec.rule_of (Cuts kind) }
{
    only_where(!is_text(kind), Rule::WRONG_DESIGNATOR)
}

fn is_length(m: Option<u32>, n: Option<u32>) -> bool
    ensures { result ≡ spec.is_length m n }
{
    let Some(m) = m else {
        return false;
    };
    let Some(n) = n else {
        return false;
    };
    m == n
}

fn is_alike(f: &Facts, g: &Facts) -> bool
    ensures { result ≡ spec.is_alike f.now g.now }
{
    is_kind(f.kind, g.kind) && (!is_of(Kind::Text, f) || is_length(f.length, g.length))
}

fn all_are_alike(first: &Facts, values: &[Facts]) -> bool
    ensures { result ≡ list_all (spec.is_alike first.now) values.now }
{
    for value in values {
        if !is_alike(first, value) {
            return false;
        }
    }
    true
}

fn are_alike(values: &[Facts]) -> bool
    ensures { result ≡ spec.are_alike values.now }
{
    match values {
        [] => true,
        [first, ..] => all_are_alike(first, values),
    }
}

/// A constructor with these values.
pub fn gathers(values: &[Facts]) -> Option<Rule>
    ensures { told result ≡ spec.rule_of (Gathers values.now) }
{
    only_where(!are_alike(values), Rule::WRONG_CONSTRUCTOR)
}

/// An intrinsic with its arguments in their places.
#[tactic(auto, using(crate::proofs::Orders::extents_first))]
pub fn refers(
    alloc: Global,
    which: Family,
    dim: Option<u8>,
    gs: &[Given],
) -> Result<Option<Rule>, AllocError>
    ensures { IfOk result (λ rule. told rule ≡ spec.rule_of (Refers which dim gs.now)) }
{
    let fit = takes(alloc, which, dim, gs)?;
    let others = has_others(alloc, which, gs)?;
    Ok(then_extents(Rule::WRONG_INTRINSIC_ARGUMENTS, fit, others))
}

/// An intrinsic that has no such arguments at all.
pub fn misrefers() -> Option<Rule>
    ensures { told result ≡ spec.rule_of Misrefers }
{
    Some(Rule::WRONG_INTRINSIC_ARGUMENTS)
}

/// A reference to an ELEMENTAL function whose arguments match.
pub fn spreads(alloc: Global, shapes: &[Items<Extent>]) -> Result<Option<Rule>, AllocError>
    ensures { IfOk result (λ rule. told rule ≡ spec.rule_of (Spreads shapes.now)) }
{
    let differ = some_differ(alloc, shapes)?;
    Ok(only_where(differ, Rule::EXTENTS_DIFFER))
}
