//! Breaks that are told, of which the first is kept.
ghost use Rattle.std.specs.Prelude.{◌≡◌, Some};
ghost use Rattle.a95_base.specs.Breaks.{broken_at, comes_first};
ghost use Rattle.scope_rules.specs.Told.{told, all_told, on_lines, line_if};
ghost use Rattle.scope_rules.specs.Sites.{object_rule, demand_rule};

use crate::rules::{DemandRule, ObjectRule};
use a95_base::{Break, Rule};

fn comes_first(a: Break, b: Break) -> bool
    ensures { result ≡ comes_first a b }
{
    a.line < b.line || a.line == b.line && a.rule <= b.rule
}

fn first_told(found: Option<Break>, one: Break) -> Break
    ensures { Some result ≡ told found one }
{
    match found {
        None => one,
        Some(found) => { if comes_first(found, one) { found } else { one } }
    }
}

/// The rule is broken on the line.
pub fn tell(rule: Rule, line: u32, breaks: &mut Option<Break>)
    ensures { breaks.new ≡ told breaks.old (broken_at line rule.0) }
{
    let one = Break { line, rule: rule.0 };
    *breaks = Some(first_told(*breaks, one));
}

/// The rule is broken on the line if the test holds.
pub fn tell_if(holds: bool, rule: Rule, line: u32, breaks: &mut Option<Break>)
    ensures { breaks.new ≡ all_told breaks.old (on_lines rule.0 (line_if holds line)) }
{
    if holds {
        tell(rule, line, breaks);
    }
}

pub fn object_rule(rule: ObjectRule) -> Rule
    ensures { result.0 ≡ object_rule rule }
{
    match rule {
        ObjectRule::WrongAttributes => Rule::WRONG_ATTRIBUTES,
        ObjectRule::RankTooGreat => Rule::RANK_TOO_GREAT,
        ObjectRule::ShapeTooLarge => Rule::SHAPE_TOO_LARGE,
        ObjectRule::NoSpecification => Rule::NO_SPECIFICATION_EXPRESSION,
    }
}

pub fn demand_rule(rule: DemandRule) -> Rule
    ensures { result.0 ≡ demand_rule rule }
{
    match rule {
        DemandRule::NotConstant => Rule::NOT_CONSTANT,
        DemandRule::ConstantFault => Rule::CONSTANT_FAULTS,
    }
}
