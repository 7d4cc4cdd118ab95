//! The calls of a whole unit.
ghost use Rattle.std.specs.Prelude.{◌≡◌, IfOk, IfErr, OnOk};
ghost use Rattle.f95_unit.specs.View.{program_of};
ghost use Rattle.proc_check.specs.Broken.{IsUnbroken, Refuses};
ghost use Rattle.proc_check.specs.Walk.{through_unit};

use crate::procedures::in_procedure;
use a95_base::{Break, Line, PhaseError, Rule};
use f95_unit::Unit;
use proc_calls::{Caller, interfaces_of};
use sqlite_items::Items;
use std::alloc::{AllocError, Global};

fn first_break(alloc: Global, unit: &Unit) -> Result<Option<Break>, AllocError>
    ensures { IfOk result (λ found. found ≡ through_unit (program_of unit.now)) }
{
    let interfaces = interfaces_of(alloc, unit.procedures.as_slice())?;
    let mut c = Caller {
        interfaces,
        number: None,
        recursive: false,
        pure: false,
        roles: Items::new(alloc),
    };
    let mut found = in_procedure(alloc, &mut c, None, &unit.main, None)?;
    for (number, p) in unit.procedures.as_slice().iter().enumerate() {
        found = in_procedure(alloc, &mut c, Some(number), p, found)?;
    }
    Ok(found)
}

/// Whether each call of the unit matches, and each procedure is what its prefixes say; the least line, and on it the least rule,
/// where one doesn't.
#[tactic(auto, using(crate::proofs::Refusing::unbroken))]
pub fn match_calls(alloc: Global, unit: &Unit) -> Result<(), PhaseError>
    ensures unbroken { OnOk result (IsUnbroken unit.now) }
    ensures refused { IfErr result (Refuses unit.now) }
{
    match first_break(alloc, unit)? {
        None => Ok(()),
        Some(first) => Err(PhaseError::Broken {
            line: Line(first.line),
            rule: Rule(first.rule),
        }),
    }
}
