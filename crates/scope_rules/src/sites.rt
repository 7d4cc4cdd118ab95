//! The rules that are tried at each declaration.
ghost use Rattle.std.specs.Prelude.{◌≡◌, take, ◌&&◌, not, IfOk, OnOk};
ghost use Rattle.names_types.specs.declared.meaning.Meaning.{Meaning};
ghost use Rattle.names_types.specs.Rules.{form_demands, declares};
ghost use Rattle.names_types.specs.Scopes.{entries, has_intent, is_dummy};
ghost use Rattle.names_types.specs.View.{type_of};
ghost use Rattle.declared_meanings.specs.Objects.{object_in};
ghost use Rattle.scope_entries.specs.View.{entry_of, form_of};
ghost use Rattle.known_scopes.specs.Listing.{IsListed};
ghost use Rattle.known_scopes.specs.View.{scope_of};
ghost use Rattle.scope_rules.specs.declared.rules.ObjectRule.TheVariants as of_object;
ghost use Rattle.scope_rules.specs.Asking.{told_object, told_prefix};
ghost use Rattle.scope_rules.specs.Results.{stands_among};
ghost use Rattle.scope_rules.specs.Sites.{sited, senses_at, object_test, site_breaks, site_rule, site_lines, told_demands};
ghost use Rattle.scope_rules.specs.Told.{all_told, on_lines};

use crate::agreement::{disagree, in_procedure};
use crate::asking::Asked;
use crate::bounds::none_in_dims;
use crate::demands::{tell_length, tell_object};
use crate::lengths::has_wrong_length;
use crate::rules::{DemandRule, ObjectRule, SiteRule};
use crate::sizes::shape_too_large;
use crate::telling::{object_rule, tell_if};
use a95_base::{Break, GREATEST_RANK, Line, Rule, SharedBytes};
use declared_meanings::dims;
use f95_tree::{Declaration, Entity, TypeSpec};
use known_scopes::{
    AttributeSort, Known, SpecificationSenses, constant_senses, has_sort, is_dummy, name_line,
    prefix_senses,
};
use scope_entries::{Entry, Form};
use std::alloc::{AllocError, Global};

/// Whether the name has a declaration before that place.
fn stands_before(known: &Known<'_>, name: &SharedBytes, place: usize) -> bool
    ensures { result ≡ stands_among name.now (take place (entries (scope_of known.now.scope))) }
{
    match known.own.names.first_place(name.as_slice()) {
        None => false,
        Some(first) => first < place,
    }
}

fn no_specification(
    alloc: Global,
    known: &Known<'_>,
    place: usize,
    entry: Entry<'_>,
    declaration: &(Line, Declaration),
    entity: &Entity,
) -> Result<bool, AllocError>
    ensures { IfOk result
        (λ b. (m : Meaning) → b ≡ object_test of_object.NoSpecification (scope_of known.now.scope)
        (sited (scope_of known.now.scope) place (entry_of entry.entry) m) (object_in declaration.now entity.now)) }
{
    if in_procedure(known.scope.place) {
        let senses = SpecificationSenses {
            known,
            constant: constant_senses(known, place),
        };
        none_in_dims(alloc, &senses, dims(declaration, entity))
    } else {
        Ok(false)
    }
}

fn object_holds(
    alloc: Global,
    rule: ObjectRule,
    known: &Known<'_>,
    place: usize,
    entry: Entry<'_>,
    declaration: &(Line, Declaration),
    entity: &Entity,
) -> Result<bool, AllocError>
    ensures { IfOk result
        (λ b. (m : Meaning) → b ≡ object_test rule (scope_of known.now.scope)
        (sited (scope_of known.now.scope) place (entry_of entry.entry) m) (object_in declaration.now entity.now)) }
{
    match rule {
        ObjectRule::WrongAttributes => Ok(disagree(known, entry.name, declaration, entity)),
        ObjectRule::RankTooGreat => Ok(dims(declaration, entity).len() > GREATEST_RANK),
        ObjectRule::ShapeTooLarge => shape_too_large(
            alloc,
            known,
            place,
            dims(declaration, entity),
        ),
        ObjectRule::NoSpecification => no_specification(
            alloc,
            known,
            place,
            entry,
            declaration,
            entity,
        ),
    }
}

/// Whether the declaration of that place says what breaks the rule.
fn holds_at(
    alloc: Global,
    rule: ObjectRule,
    known: &Known<'_>,
    place: usize,
    entry: Entry<'_>,
) -> Result<bool, AllocError>
    ensures { IfOk result
        (λ b. (m : Meaning) → b ≡ declares (object_test rule (scope_of known.now.scope))
        (sited (scope_of known.now.scope) place (entry_of entry.entry) m) (form_of entry.entry.form)) }
{
    match entry.form {
        Form::Brings(_) => Ok(false),
        Form::Declares(declaration, entity) => {
            object_holds(alloc, rule, known, place, entry, declaration, entity)
        }
        Form::Types(_) => Ok(false),
        Form::Begins => Ok(false),
    }
}

/// Whether INTENT stands on what is no dummy.
fn is_intended_other(known: &Known<'_>, place: usize, entry: Entry<'_>) -> bool
    ensures { (m : Meaning) → result ≡ declares (λ t o. has_intent o && not (is_dummy (scope_of known.now.scope) t.entry.name))
        (sited (scope_of known.now.scope) place (entry_of entry.entry) m) (form_of entry.entry.form) }
{
    match entry.form {
        Form::Brings(_) => false,
        Form::Declares(declaration, _) => {
            has_sort(AttributeSort::Intended, declaration.1.attributes.as_slice())
                && !is_dummy(known, entry.name)
        }
        Form::Types(_) => false,
        Form::Begins => false,
    }
}

fn tell_declared(
    alloc: Global,
    rule: DemandRule,
    known: &Known<'_>,
    place: usize,
    line: u32,
    declaration: &(Line, Declaration),
    entity: &Entity,
    breaks: &mut Option<Break>,
) -> Result<(), AllocError>
    ensures { OnOk result
        (breaks.new ≡ all_told breaks.old (told_object rule (scope_of known.now.scope) line (senses_at known.now.scope place)
        (object_in declaration.now entity.now))) }
{
    let asked = Asked {
        rule,
        known,
        line,
        senses: constant_senses(known, place),
    };
    tell_object(alloc, &asked, declaration, entity, breaks)
}

fn tell_prefix(
    alloc: Global,
    rule: DemandRule,
    known: &Known<'_>,
    line: u32,
    of: &TypeSpec,
    breaks: &mut Option<Break>,
) -> Result<(), AllocError>
    ensures { OnOk result
        (breaks.new ≡ all_told breaks.old (told_prefix rule (scope_of known.now.scope) line (type_of of.now))) }
{
    let asked = Asked {
        rule,
        known,
        line,
        senses: prefix_senses(known),
    };
    tell_length(alloc, &asked, of, breaks)
}

fn tell_demands(
    alloc: Global,
    rule: DemandRule,
    known: &Known<'_>,
    place: usize,
    entry: Entry<'_>,
    breaks: &mut Option<Break>,
) -> Result<(), AllocError>
    ensures { OnOk result
        ((m : Meaning) → breaks.new ≡ all_told breaks.old (told_demands rule (scope_of known.now.scope)
        (form_demands (scope_of known.now.scope) (sited (scope_of known.now.scope) place (entry_of entry.entry) m)
        (form_of entry.entry.form)))) }
{
    match entry.form {
        Form::Brings(_) => Ok(()),
        Form::Declares(declaration, entity) => {
            tell_declared(
                alloc,
                rule,
                known,
                place,
                entry.line,
                declaration,
                entity,
                breaks,
            )
        }
        Form::Types(of) => tell_prefix(alloc, rule, known, entry.line, of, breaks),
        Form::Begins => Ok(()),
    }
}

/// What the rule says of the declaration of that place.
fn tell_site(
    alloc: Global,
    rule: SiteRule,
    known: &Known<'_>,
    place: usize,
    entry: Entry<'_>,
    breaks: &mut Option<Break>,
) -> Result<(), AllocError>
    requires listed { IsListed known.now }
    ensures { OnOk result
        ((m : Meaning) → breaks.new ≡ all_told breaks.old
        (site_breaks rule (scope_of known.now.scope) (sited (scope_of known.now.scope) place (entry_of entry.entry) m))) }
{
    match rule {
        SiteRule::DeclaredTwice => {
            tell_if(
                stands_before(known, entry.name, place),
                Rule::DECLARED_TWICE,
                entry.line,
                breaks,
            );
            Ok(())
        }
        SiteRule::IntendedOther => {
            let line = name_line(entry.line, known, entry.name);
            tell_if(
                is_intended_other(known, place, entry),
                Rule::WRONG_DUMMY,
                line,
                breaks,
            );
            Ok(())
        }
        SiteRule::WrongLength => {
            let holds = has_wrong_length(alloc, known, place, entry)?;
            tell_if(holds, Rule::WRONG_LENGTH, entry.line, breaks);
            Ok(())
        }
        SiteRule::OfObject(rule) => {
            let holds = holds_at(alloc, rule, known, place, entry)?;
            tell_if(holds, object_rule(rule), entry.line, breaks);
            Ok(())
        }
        SiteRule::OfDemand(rule) => tell_demands(alloc, rule, known, place, entry, breaks),
    }
}

/// The rule, at all declarations of a scope.
pub fn tell_sites(
    alloc: Global,
    rule: SiteRule,
    known: &Known<'_>,
    breaks: &mut Option<Break>,
) -> Result<(), AllocError>
    requires listed { IsListed known.now }
    ensures { OnOk result
        (breaks.new ≡ all_told breaks.old (on_lines (site_rule rule) (site_lines rule (scope_of known.now.scope)))) }
{
    let mut place = 0;
    for entry in known.entries.as_slice() {
        tell_site(alloc, rule, known, place, *entry, breaks)?;
        place += 1;
    }
    Ok(())
}
