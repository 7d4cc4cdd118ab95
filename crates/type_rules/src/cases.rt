//! Values of CASE.
ghost use Rattle.std.specs.Prelude.{◌≡◌, ◌&&◌, ◌||◌, not};
ghost use Rattle.well_typed.specs.Questions.{Matches};
ghost use Rattle.well_typed.specs.Rules as spec;
ghost use Rattle.type_rules.specs.Told.{told};

use crate::operands::only_where;
use a95_base::{Kind, Rule};
use constant_operators::{Worth, is_kind};

fn is_value(worth: &Worth) -> bool
    ensures { result ≡ spec.is_value worth.now }
{
    match worth {
        Worth::Is(_) => true,
        Worth::Spoilt => false,
        Worth::Unknown => false,
    }
}

/// A CASE value, or a range where there is a colon, for a selector of that kind.
pub fn matches(selector: Kind, colon: bool, kind: Kind, worth: &Worth) -> Option<Rule>
    ensures { told result ≡ spec.rule_of (Matches selector colon kind worth.now) }
{
    let fit = is_kind(selector, kind) && is_value(worth);
    only_where(
        !fit || colon && is_kind(Kind::Log, selector),
        Rule::WRONG_CASE,
    )
}
