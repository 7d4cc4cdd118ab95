//! The first break so far.
ghost use Rattle.std.specs.Prelude.{◌≡◌};
ghost use Rattle.proc_calls.specs.Found.{noted};

use a95_base::{Break, Rule, first_of};

/// The first of what was found, and of the rule on the line where that is broken.
pub fn noted(found: Option<Break>, is_broken: bool, line: u32, rule: Rule) -> Option<Break>
    ensures { result ≡ noted found is_broken line rule.0 }
{
    if !is_broken {
        return found;
    }
    let last = Break { line, rule: rule.0 };
    match found {
        None => Some(last),
        Some(first) => first_of(&[first, last]),
    }
}
