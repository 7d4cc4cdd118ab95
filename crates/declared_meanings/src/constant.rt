//! The length that a declaration gives, and the type and the value of a named constant.
ghost use Rattle.std.specs.Prelude.{◌≡◌, pos, Some, IfOk, option_map};
ghost use Rattle.a95_base.specs.declared.scalar.Scalar.TheVariants as scalar;
ghost use Rattle.a95_base.specs.Text.{fit};
ghost use Rattle.constant_operators.specs.declared.value.Worth.TheVariants.{Is, Unknown};
ghost use Rattle.constant_operators.specs.Operators.{facts_of, valued_as, text_of, then_option};
ghost use Rattle.names_types.specs.Plain.{Character, Number};
ghost use Rattle.names_types.specs.Constants.{valued};
ghost use Rattle.names_types.specs.Scopes.{kind_of, worth_in, length_within, declared_length, text_length, constant_length, stored};
ghost use Rattle.names_types.specs.Scopes.{stored_worth, constant_from};
ghost use Rattle.names_types.specs.View.{expr_of, type_of};

use a95_base::{Kind, Scalar, fit};
use constant_operators::{Facts, Valued, Worth, is_kind, text_of};
use constant_values::{Senses, valued};
use f95_tree::{Expression, Length, TypeSpec};
use std::alloc::{AllocError, Global};

pub fn kind_of(of: &TypeSpec) -> Kind
    ensures { result ≡ kind_of (type_of of.now) }
{
    match of {
        TypeSpec::Integer => Kind::Int,
        TypeSpec::Logical => Kind::Log,
        TypeSpec::Character(_) => Kind::Text,
    }
}

fn number_within(z: i32) -> Option<usize>
    ensures { result ≡ length_within (Is (scalar.Int z)) }
{
    match u8::try_from(z) {
        Ok(n) => Some(usize::from(n)),
        Err(_) => None,
    }
}

/// A length that a variable may have.
pub fn length_within(worth: &Worth) -> Option<usize>
    ensures { result ≡ length_within worth.now }
{
    match worth {
        Worth::Is(Scalar::Int(z)) => number_within(*z),
        Worth::Is(Scalar::Log(_)) => None,
        Worth::Is(Scalar::Text(_)) => None,
        Worth::Spoilt => None,
        Worth::Unknown => None,
    }
}

fn computed_length<S: Senses>(
    alloc: Global,
    senses: &S,
    e: &Expression,
) -> Result<Option<usize>, AllocError>
    ensures { IfOk result (λ n. n ≡ length_within (worth_in (valued (S.meant senses.now) (expr_of e.now)))) }
{
    match valued(alloc, senses, e)? {
        None => Ok(None),
        Some(v) => Ok(length_within(&v.worth)),
    }
}

/// The length of a text, where the declaration gives one that a variable may have.
pub fn declared_length<S: Senses>(
    alloc: Global,
    senses: &S,
    of: &TypeSpec,
) -> Result<Option<usize>, AllocError>
    ensures { IfOk result (λ n. n ≡ declared_length (S.meant senses.now) (type_of of.now)) }
{
    match of {
        TypeSpec::Integer => Ok(None),
        TypeSpec::Logical => Ok(None),
        TypeSpec::Character(Length::One) => Ok(Some(1)),
        TypeSpec::Character(Length::Number(z)) => Ok(number_within(*z)),
        TypeSpec::Character(Length::Given(_, e)) => computed_length(alloc, senses, e),
        TypeSpec::Character(Length::Assumed(_)) => Ok(None),
    }
}

fn text_length(worth: &Worth, known: Option<usize>) -> Option<usize>
    ensures { result ≡ text_length worth.now known }
{
    match worth {
        Worth::Is(x) => Some(text_of(x).len()),
        Worth::Spoilt => known,
        Worth::Unknown => known,
    }
}

/// A named constant of length `*` has that of its value.
fn constant_length(of: &TypeSpec, length: Option<usize>, valued: &Valued) -> Option<usize>
    ensures { result ≡ constant_length (type_of of.now) length valued.now }
{
    match of {
        TypeSpec::Integer => length,
        TypeSpec::Logical => length,
        TypeSpec::Character(Length::One) => length,
        TypeSpec::Character(Length::Number(_)) => length,
        TypeSpec::Character(Length::Given(..)) => length,
        TypeSpec::Character(Length::Assumed(_)) => text_length(&valued.worth, valued.facts.length),
    }
}

fn fitted(alloc: Global, length: usize, x: &Scalar) -> Result<Worth, AllocError>
    ensures { IfOk result (λ w. w ≡ Is (scalar.Text (fit length (text_of x.now)))) }
{
    let text = fit(alloc, text_of(x), length).map_err(|_| AllocError)?;
    Ok(Worth::Is(Scalar::Text(text)))
}

fn of_length(alloc: Global, length: Option<usize>, x: &Scalar) -> Result<Worth, AllocError>
    ensures { IfOk result (λ w. w ≡ stored (Character (Number (pos 1))) length x.now) }
{
    match length {
        None => Ok(Worth::Unknown),
        Some(length) => fitted(alloc, length, x),
    }
}

/// A text is cut to the declared length, or padded.
fn stored(
    alloc: Global,
    of: &TypeSpec,
    length: Option<usize>,
    x: Scalar,
) -> Result<Worth, AllocError>
    ensures { IfOk result (λ w. w ≡ stored (type_of of.now) length x) }
{
    match of {
        TypeSpec::Integer => Ok(Worth::Is(x)),
        TypeSpec::Logical => Ok(Worth::Is(x)),
        TypeSpec::Character(Length::Assumed(_)) => Ok(Worth::Is(x)),
        TypeSpec::Character(_) => of_length(alloc, length, &x),
    }
}

/// A constant whose own expression is spoilt has no value, and spoils no other.
fn stored_worth(
    alloc: Global,
    of: &TypeSpec,
    length: Option<usize>,
    worth: Worth,
) -> Result<Worth, AllocError>
    ensures { IfOk result (λ w. w ≡ stored_worth (type_of of.now) length worth) }
{
    match worth {
        Worth::Is(x) => stored(alloc, of, length, x),
        Worth::Spoilt => Ok(Worth::Unknown),
        Worth::Unknown => Ok(Worth::Unknown),
    }
}

fn unknown(kind: Kind, length: Option<usize>) -> Valued
    ensures { result ≡ valued_as (facts_of kind length) Unknown }
{
    Valued {
        facts: Facts { kind, length },
        worth: Worth::Unknown,
    }
}

fn constant_of(
    alloc: Global,
    of: &TypeSpec,
    length: Option<usize>,
    valued: Valued,
) -> Result<Valued, AllocError>
    ensures { IfOk result (λ v. v ≡ constant_from (type_of of.now) length (Some valued)) }
{
    let kind = kind_of(of);
    if !is_kind(kind, valued.facts.kind) {
        return Ok(unknown(kind, length));
    }
    let known = constant_length(of, length, &valued);
    let worth = stored_worth(alloc, of, length, valued.worth)?;
    Ok(Valued {
        facts: Facts {
            kind,
            length: known,
        },
        worth,
    })
}

fn constant_from(
    alloc: Global,
    of: &TypeSpec,
    length: Option<usize>,
    valued: Option<Valued>,
) -> Result<Valued, AllocError>
    ensures { IfOk result (λ v. v ≡ constant_from (type_of of.now) length valued) }
{
    match valued {
        None => Ok(unknown(kind_of(of), length)),
        Some(valued) => constant_of(alloc, of, length, valued),
    }
}

fn initial_value<S: Senses>(
    alloc: Global,
    senses: &S,
    initial: &Option<Expression>,
) -> Result<Option<Valued>, AllocError>
    ensures { IfOk result (λ v. v ≡ then_option (option_map expr_of initial.now) (valued (S.meant senses.now))) }
{
    match initial {
        None => Ok(None),
        Some(e) => valued(alloc, senses, e),
    }
}

/// The type and the value of a named constant.
pub fn constant_value<S: Senses>(
    alloc: Global,
    senses: &S,
    of: &TypeSpec,
    initial: &Option<Expression>,
) -> Result<Valued, AllocError>
    ensures { IfOk result
        (λ v. v ≡ constant_from (type_of of.now) (declared_length (S.meant senses.now) (type_of of.now))
        (then_option (option_map expr_of initial.now) (valued (S.meant senses.now)))) }
{
    let length = declared_length(alloc, senses, of)?;
    let value = initial_value(alloc, senses, initial)?;
    constant_from(alloc, of, length, value)
}
