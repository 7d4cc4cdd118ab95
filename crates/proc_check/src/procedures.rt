//! What a procedure breaks: by its prefixes, by its declarations, by its result, and by what its statements do.
ghost use Rattle.std.specs.Prelude.{◌≡◌, [], IfOk, OnOk, map, option_map};
ghost use Rattle.std.specs.List.{fold};
ghost use Rattle.std.specs.Option.{option_copied};
ghost use Rattle.f95_unit.specs.View.{entity_of, procedure_of};
ghost use Rattle.proc_calls.specs.Rules.{home};
ghost use Rattle.proc_check.specs.Rules as rules;
ghost use Rattle.proc_check.specs.Walk.{through_heading, through_entity, through_result, through_declarations, through_home};

use crate::statements::in_stmts;
use a95_base::{Break, Rule};
use f95_unit::{Entity, Procedure, Role};
use proc_calls::{Caller, enter, is_dummy, is_in, noted, rank_of};
use std::alloc::{AllocError, Global};

fn at_heading(p: &Procedure, found: Option<Break>) -> Option<Break>
    ensures { result ≡ through_heading (procedure_of p.now) found }
{
    let line = p.line.0;
    let is_impure = p.result.is_some() && !(p.pure || p.elemental);
    let found = noted(found, is_impure, line, Rule::NOT_PURE);
    noted(found, p.elemental && p.recursive, line, Rule::NOT_ELEMENTAL)
}

fn is_changed_dummy(role: Role) -> bool
    ensures { result ≡ rules.is_changed_dummy role }
{
    match role {
        Role::Own => false,
        Role::Dummy(_, intent) => !is_in(intent),
    }
}

fn is_array(e: &Entity) -> bool
    ensures { result ≡ rules.is_array (entity_of e.now) }
{
    rank_of(&e.bounds) > 0
}

fn at_entity(p: &Procedure, e: &Entity, found: Option<Break>) -> Option<Break>
    ensures { result ≡ through_entity (procedure_of p.now) found (entity_of e.now) }
{
    let line = e.line.0;
    let found = noted(
        found,
        p.result.is_some() && is_changed_dummy(e.role),
        line,
        Rule::NOT_PURE,
    );
    let is_array = p.elemental && is_dummy(e.role) && is_array(e);
    noted(found, is_array, line, Rule::NOT_ELEMENTAL)
}

fn at_entities(p: &Procedure, entities: &[Entity], found: Option<Break>) -> Option<Break>
    ensures { result ≡ fold (through_entity (procedure_of p.now)) found (map entity_of entities.now) }
{
    let mut found = found;
    for e in entities {
        found = at_entity(p, e, found);
    }
    found
}

fn result_in(entities: &[Entity], number: Option<u32>) -> Option<&Entity>
    ensures { option_map entity_of (option_copied result) ≡ rules.result_in (map entity_of entities.now) number }
{
    match number {
        None => None,
        Some(number) => entities.get(number as usize),
    }
}

fn at_result(
    elemental: bool,
    entities: &[Entity],
    number: Option<u32>,
    found: Option<Break>,
) -> Option<Break>
    ensures { result ≡ through_result elemental found (rules.result_in (map entity_of entities.now) number) }
{
    match result_in(entities, number) {
        None => found,
        Some(e) => noted(
            found,
            elemental && is_array(e),
            e.line.0,
            Rule::NOT_ELEMENTAL,
        ),
    }
}

fn at_declarations(p: &Procedure, found: Option<Break>) -> Option<Break>
    ensures { result ≡ through_declarations (procedure_of p.now) found }
{
    let found = at_heading(p, found);
    let found = at_entities(p, p.entities.as_slice(), found);
    at_result(p.elemental, p.entities.as_slice(), p.result, found)
}

/// The first break with those of a procedure, which references from now on.
pub fn in_procedure(
    alloc: Global,
    c: &mut Caller,
    number: Option<usize>,
    p: &Procedure,
    found: Option<Break>,
) -> Result<Option<Break>, AllocError>
    ensures first { IfOk result (λ r. r ≡ through_home c.old.interfaces found (home number (procedure_of p.now))) }
    ensures kept { OnOk result (c.new.interfaces ≡ c.old.interfaces) }
{
    enter(alloc, c, number, p)?;
    in_stmts(alloc, c, &[], p.body.as_slice(), at_declarations(p, found))
}
