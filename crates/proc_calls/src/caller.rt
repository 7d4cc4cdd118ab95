//! A procedure as the one that references others.
ghost use Rattle.std.specs.Prelude.{◌≡◌, IfOk, OnOk, map};
ghost use Rattle.f95_unit.specs.View.{entity_of, procedure_of};
ghost use Rattle.proc_calls.specs.Rules as spec;

use crate::interface::Interface;
use f95_unit::{Entity, Procedure, Role};
use sqlite_items::Items;
use std::alloc::{AllocError, Global};

/// The interfaces of all procedures, then of this one its number among them (the main program has none), whether it is RECURSIVE,
/// whether it is PURE or ELEMENTAL, and the role of each of its variables.
#[derive(Drop)]
pub struct Caller {
    pub interfaces: Items<Interface>,
    pub number: Option<usize>,
    pub recursive: bool,
    pub pure: bool,
    pub roles: Items<Role>,
}

fn roles_of(alloc: Global, entities: &[Entity]) -> Result<Items<Role>, AllocError>
    ensures { IfOk result (λ roles. roles ≡ spec.roles_of (map entity_of entities.now)) }
{
    let mut roles = Items::new(alloc);
    for e in entities {
        roles.push(e.role)?;
    }
    Ok(roles)
}

/// From now on this procedure references.
pub fn enter(
    alloc: Global,
    c: &mut Caller,
    number: Option<usize>,
    p: &Procedure,
) -> Result<(), AllocError>
    ensures { OnOk result (c.new ≡ spec.caller_of c.old.interfaces (spec.home number (procedure_of p.now))) }
{
    c.roles = roles_of(alloc, p.entities.as_slice())?;
    c.number = number;
    c.recursive = p.recursive;
    c.pure = p.pure || p.elemental;
    Ok(())
}
