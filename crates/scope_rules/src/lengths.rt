//! Lengths that no text may have.
ghost use Rattle.std.specs.Prelude.{◌≡◌, ◌||◌, pos, IfOk};
ghost use Rattle.constant_operators.specs.declared.value.Worth.TheVariants.{Is};
ghost use Rattle.a95_base.specs.declared.scalar.Scalar.TheVariants as scalar;
ghost use Rattle.names_types.specs.Constants.{valued};
ghost use Rattle.names_types.specs.declared.meaning.Meaning.{Meaning};
ghost use Rattle.names_types.specs.Rules.{is_outside, is_wrong_length, has_wrong_length, prefix_sense};
ghost use Rattle.names_types.specs.Scopes.{worth_in, is_dummy};
ghost use Rattle.names_types.specs.View.{expr_of, type_of};
ghost use Rattle.scope_entries.specs.View.{entry_of, form_of};
ghost use Rattle.known_scopes.specs.View.{scope_of, senses_of};
ghost use Rattle.scope_rules.specs.Sites.{sited, senses_at};

use a95_base::{Scalar, SharedBytes};
use constant_operators::{Valued, Worth};
use constant_values::valued;
use declared_meanings::length_within;
use f95_tree::{Expression, Length, TypeSpec};
use known_scopes::{AttributeSort, Known, constant_senses, has_sort, is_dummy, prefix_senses};
use scope_entries::{Entry, Form};
use scope_names::ConstantSenses;
use std::alloc::{AllocError, Global};

fn is_outside(worth: &Worth) -> bool
    ensures { result ≡ is_outside worth.now }
{
    match worth {
        Worth::Is(Scalar::Int(_)) => length_within(worth).is_none(),
        Worth::Is(Scalar::Log(_)) => false,
        Worth::Is(Scalar::Text(_)) => false,
        Worth::Spoilt => false,
        Worth::Unknown => false,
    }
}

fn number_is_outside(z: i32) -> bool
    ensures { result ≡ is_outside (Is (scalar.Int z)) }
{
    is_outside(&Worth::Is(Scalar::Int(z)))
}

fn value_is_outside(valued: &Option<Valued>) -> bool
    ensures { result ≡ is_outside (worth_in valued.now) }
{
    match valued {
        None => false,
        Some(valued) => is_outside(&valued.worth),
    }
}

fn computed_is_outside(
    alloc: Global,
    senses: &ConstantSenses<'_>,
    e: &Expression,
) -> Result<bool, AllocError>
    ensures { IfOk result (λ b. b ≡ is_outside (worth_in (valued (senses_of senses.now) (expr_of e.now)))) }
{
    let value = valued(alloc, senses, e)?;
    let holds = value_is_outside(&value);
    drop(value);
    Ok(holds)
}

fn is_wrong_length(
    alloc: Global,
    senses: &ConstantSenses<'_>,
    may_be_assumed: bool,
    of: &TypeSpec,
) -> Result<bool, AllocError>
    ensures { IfOk result (λ b. b ≡ is_wrong_length (senses_of senses.now) may_be_assumed (type_of of.now)) }
{
    match of {
        TypeSpec::Integer => Ok(false),
        TypeSpec::Logical => Ok(false),
        TypeSpec::Character(Length::One) => Ok(false),
        TypeSpec::Character(Length::Number(z)) => Ok(number_is_outside(*z)),
        TypeSpec::Character(Length::Given(_, e)) => computed_is_outside(alloc, senses, e),
        TypeSpec::Character(Length::Assumed(_)) => Ok(!may_be_assumed),
    }
}

fn wrong_at(
    alloc: Global,
    known: &Known<'_>,
    place: usize,
    may_be_assumed: bool,
    of: &TypeSpec,
) -> Result<bool, AllocError>
    ensures { IfOk result (λ b. b ≡ is_wrong_length (senses_at known.now.scope place) may_be_assumed (type_of of.now)) }
{
    let senses = constant_senses(known, place);
    is_wrong_length(alloc, &senses, may_be_assumed, of)
}

fn wrong_in_prefix(
    alloc: Global,
    known: &Known<'_>,
    name: &SharedBytes,
    of: &TypeSpec,
) -> Result<bool, AllocError>
    ensures { IfOk result
        (λ b. b ≡ is_wrong_length (prefix_sense (scope_of known.now.scope)) (is_dummy (scope_of known.now.scope) name.now)
        (type_of of.now)) }
{
    let senses = prefix_senses(known);
    is_wrong_length(alloc, &senses, is_dummy(known, name), of)
}

/// Whether the declaration at that place gives a length that no text may have.
pub fn has_wrong_length(
    alloc: Global,
    known: &Known<'_>,
    place: usize,
    entry: Entry<'_>,
) -> Result<bool, AllocError>
    ensures { IfOk result
        (λ b. (m : Meaning) → b ≡ has_wrong_length (scope_of known.now.scope)
        (sited (scope_of known.now.scope) place (entry_of entry.entry) m) (form_of entry.entry.form)) }
{
    match entry.form {
        Form::Brings(_) => Ok(false),
        Form::Declares(declaration, _) => {
            let may_be_assumed = is_dummy(known, entry.name)
                || has_sort(
                    AttributeSort::Parameter,
                    declaration.1.attributes.as_slice(),
                );
            wrong_at(alloc, known, place, may_be_assumed, &declaration.1.of)
        }
        Form::Types(of) => wrong_in_prefix(alloc, known, entry.name, of),
        Form::Begins => Ok(false),
    }
}
