//! Kinds, ranks and extents of operands, of bounds, and of a target and its value.
ghost use Rattle.std.specs.Prelude.{◌≡◌, ◌&&◌, ◌||◌, None, option_map, IfOk};
ghost use Rattle.well_typed.specs.declared.known.Variable.{Variable};
ghost use Rattle.well_typed.specs.Questions.{Operates, Signs, Bounds, Counts, Assigns, Decides, Selects};
ghost use Rattle.well_typed.specs.Rules as spec;
ghost use Rattle.type_rules.specs.Told.{told, then_extents};

use a95_base::{Kind, Rule};
use constant_operators::{is_kind, operator_facts, sign_facts};
use f95_tree::{Operator, Sign};
use f95_unit::Facts;
use std::alloc::AllocError;
use typed_facts::{differ, each, is_scalar, is_scalar_of, rank, ranks_fit};
use well_typed::Variable;

pub fn only_where(broken: bool, rule: Rule) -> Option<Rule>
    ensures { told result ≡ spec.rule_if broken rule.0 None }
{
    if broken { Some(rule) } else { None }
}

/// Extents are compared only where all else fits.
pub fn then_extents(rule: Rule, fit: bool, differ: bool) -> Option<Rule>
    ensures { told result ≡ then_extents rule.0 fit differ }
{
    if fit {
        only_where(differ, Rule::EXTENTS_DIFFER)
    } else {
        Some(rule)
    }
}

fn operands_fit(operator: Operator, f: &Facts, g: &Facts) -> Result<bool, AllocError>
    ensures { IfOk result (λ fit. fit ≡ spec.operands_fit operator f.now g.now) }
{
    let of = operator_facts(operator, &each(f), &each(g))?;
    Ok(of.is_some() && ranks_fit(f.extents.as_slice(), g.extents.as_slice()))
}

/// An operator and its operands.
pub fn operates(operator: Operator, f: &Facts, g: &Facts) -> Result<Option<Rule>, AllocError>
    ensures { IfOk result (λ rule. told rule ≡ spec.rule_of (Operates operator f.now g.now)) }
{
    let fit = operands_fit(operator, f, g)?;
    let differ = differ(f.extents.as_slice(), g.extents.as_slice());
    Ok(then_extents(Rule::WRONG_KIND_OR_RANK, fit, differ))
}

pub fn signs(sign: Sign, f: &Facts) -> Option<Rule>
    ensures { told result ≡ spec.rule_of (Signs sign f.now) }
{
    only_where(
        sign_facts(sign, &each(f)).is_none(),
        Rule::WRONG_KIND_OR_RANK,
    )
}

/// A bound, which is an INTEGER scalar.
pub fn bounds(f: &Facts) -> Option<Rule>
    ensures { told result ≡ spec.rule_of (Bounds f.now) }
{
    only_where(!is_scalar_of(Kind::Int, f), Rule::WRONG_KIND_OR_RANK)
}

fn is_counter(v: Option<&Variable>) -> bool
    ensures { result ≡ spec.is_counter (option_map (λ x. x.now) v.entry) }
{
    match v {
        None => false,
        Some(v) => is_kind(Kind::Int, v.kind) && v.dims.len() == 0,
    }
}

/// The name of an index, or of the variable of a DO.
pub fn counts(v: Option<&Variable>) -> Option<Rule>
    ensures { told result ≡ spec.rule_of (Counts (option_map (λ x. x.now) v.entry)) }
{
    only_where(!is_counter(v), Rule::WRONG_KIND_OR_RANK)
}

fn value_fits(target: &Facts, value: &Facts) -> bool
    ensures { result ≡ spec.value_fits target.now value.now }
{
    is_kind(target.kind, value.kind) && (is_scalar(value) || rank(value) == rank(target))
}

/// A target and its value.
pub fn assigns(target: &Facts, value: &Facts) -> Option<Rule>
    ensures { told result ≡ spec.rule_of (Assigns target.now value.now) }
{
    let fit = value_fits(target, value);
    let differ = differ(value.extents.as_slice(), target.extents.as_slice());
    then_extents(Rule::WRONG_KIND_OR_RANK, fit, differ)
}

/// A condition.
pub fn decides(f: &Facts) -> Option<Rule>
    ensures { told result ≡ spec.rule_of (Decides f.now) }
{
    only_where(!is_scalar_of(Kind::Log, f), Rule::WRONG_KIND_OR_RANK)
}

/// A selector.
pub fn selects(f: &Facts) -> Option<Rule>
    ensures { told result ≡ spec.rule_of (Selects f.now) }
{
    only_where(!is_scalar(f), Rule::WRONG_KIND_OR_RANK)
}
