//! What operators make of expressions that are known: the kinds must fit, and what spoils one operand spoils the whole.
ghost use Rattle.std.specs.Prelude.{◌≡◌, ◌&&◌, not, Some, IfOk};
ghost use Rattle.a95_base.specs.declared.scalar.Kind.TheVariants as kind;
ghost use Rattle.constant_operators.specs.declared.value.Worth.TheVariants.{Is, Unknown};
ghost use Rattle.constant_operators.specs.Operators.{is_kind, only_if, length_sum, operands, operator_facts, sign_facts, binary};
ghost use Rattle.constant_operators.specs.Operators.{signed, literal, worth_of_one, worth_of_two, operated, signed_value};
ghost use Rattle.constant_operators.specs.Operators.{an_integer, a_truth, a_text, valued_as};

use crate::scalars::{operated, signed_value};
use crate::value::{Facts, Valued, Worth};
use a95_base::{Kind, Scalar};
use f95_tree::{Operator, Sign};
use std::alloc::{AllocError, Global};

pub fn is_kind(kind: Kind, other: Kind) -> bool
    ensures { result ≡ is_kind kind other }
{
    match kind {
        Kind::Int => matches!(other, Kind::Int),
        Kind::Log => matches!(other, Kind::Log),
        Kind::Text => matches!(other, Kind::Text),
    }
}

pub fn an_integer() -> Facts
    ensures { result ≡ an_integer }
{
    Facts {
        kind: Kind::Int,
        length: None,
    }
}

pub fn a_truth() -> Facts
    ensures { result ≡ a_truth }
{
    Facts {
        kind: Kind::Log,
        length: None,
    }
}

pub fn a_text(length: Option<usize>) -> Facts
    ensures { result ≡ a_text length }
{
    Facts {
        kind: Kind::Text,
        length,
    }
}

/// The length of two texts, one behind the other. A length that no address reaches ends as want of memory does.
fn length_sum(m: Option<usize>, n: Option<usize>) -> Result<Option<usize>, AllocError>
    ensures { IfOk result (λ sum. sum ≡ length_sum m n) }
{
    let Some(m) = m else {
        return Ok(None);
    };
    let Some(n) = n else {
        return Ok(None);
    };
    match m.checked_add(n) {
        Some(sum) => Ok(Some(sum)),
        None => Err(AllocError),
    }
}

fn are_of(kind: Kind, f: &Facts, g: &Facts) -> bool
    ensures { result ≡ (is_kind kind f.now.kind && is_kind kind g.now.kind) }
{
    is_kind(kind, f.kind) && is_kind(kind, g.kind)
}

fn only_if(holds: bool, facts: Facts) -> Option<Facts>
    ensures { result ≡ only_if holds facts }
{
    if holds { Some(facts) } else { None }
}

fn integers(f: &Facts, g: &Facts) -> Option<Facts>
    ensures { result ≡ operands kind.Int f.now g.now an_integer }
{
    only_if(are_of(Kind::Int, f, g), an_integer())
}

fn truths(f: &Facts, g: &Facts) -> Option<Facts>
    ensures { result ≡ operands kind.Log f.now g.now a_truth }
{
    only_if(are_of(Kind::Log, f, g), a_truth())
}

fn texts(f: &Facts, g: &Facts) -> Result<Option<Facts>, AllocError>
    ensures { IfOk result (λ r. r ≡ operands kind.Text f.now g.now (a_text (length_sum f.now.length g.now.length))) }
{
    let length = length_sum(f.length, g.length)?;
    Ok(only_if(are_of(Kind::Text, f, g), a_text(length)))
}

fn are_comparable(f: Kind, g: Kind) -> bool
    ensures { result ≡ (is_kind f g && not (is_kind kind.Log f)) }
{
    is_kind(f, g) && !is_kind(Kind::Log, f)
}

fn comparable(f: &Facts, g: &Facts) -> Option<Facts>
    ensures { result ≡ only_if (is_kind f.now.kind g.now.kind && not (is_kind kind.Log f.now.kind)) a_truth }
{
    only_if(are_comparable(f.kind, g.kind), a_truth())
}

/// What an operator makes of operands whose kinds fit.
pub fn operator_facts(operator: Operator, f: &Facts, g: &Facts) -> Result<Option<Facts>, AllocError>
    ensures { IfOk result (λ r. r ≡ operator_facts operator f.now g.now) }
{
    match operator {
        Operator::Power
        | Operator::Multiply
        | Operator::Divide
        | Operator::Add
        | Operator::Subtract => Ok(integers(f, g)),
        Operator::Concat => texts(f, g),
        Operator::Relation(_) => Ok(comparable(f, g)),
        Operator::And | Operator::Or | Operator::Equivalent | Operator::NotEquivalent => {
            Ok(truths(f, g))
        }
    }
}

pub fn sign_facts(sign: Sign, f: &Facts) -> Option<Facts>
    ensures { result ≡ sign_facts sign f.now }
{
    match sign {
        Sign::Plus | Sign::Minus => only_if(is_kind(Kind::Int, f.kind), an_integer()),
        Sign::Not => only_if(is_kind(Kind::Log, f.kind), a_truth()),
    }
}

/// Both operands are evaluated, so a second one that is spoilt spoils the whole.
fn with_known(alloc: Global, operator: Operator, x: &Scalar, y: &Worth) -> Result<Worth, AllocError>
    ensures { IfOk result (λ w. w ≡ worth_of_two (operated operator) (Is x.now) y.now) }
{
    match y {
        Worth::Is(y) => operated(alloc, operator, x, y),
        Worth::Spoilt => Ok(Worth::Spoilt),
        Worth::Unknown => Ok(Worth::Unknown),
    }
}

fn with_unknown(operator: Operator, y: &Worth) -> Worth
    ensures { result ≡ worth_of_two (operated operator) Unknown y.now }
{
    let _ = operator;
    match y {
        Worth::Is(_) => Worth::Unknown,
        Worth::Spoilt => Worth::Spoilt,
        Worth::Unknown => Worth::Unknown,
    }
}

pub fn worth_of_two(
    alloc: Global,
    operator: Operator,
    x: &Worth,
    y: &Worth,
) -> Result<Worth, AllocError>
    ensures { IfOk result (λ w. w ≡ worth_of_two (operated operator) x.now y.now) }
{
    match x {
        Worth::Is(x) => with_known(alloc, operator, x, y),
        Worth::Spoilt => Ok(Worth::Spoilt),
        Worth::Unknown => Ok(with_unknown(operator, y)),
    }
}

pub fn worth_of_one(sign: Sign, worth: Worth) -> Worth
    ensures { result ≡ worth_of_one (signed_value sign) worth }
{
    match worth {
        Worth::Is(x) => signed_value(sign, x),
        Worth::Spoilt => Worth::Spoilt,
        Worth::Unknown => Worth::Unknown,
    }
}

fn binary_of(
    alloc: Global,
    operator: Operator,
    u: &Valued,
    v: &Valued,
) -> Result<Option<Valued>, AllocError>
    ensures { IfOk result (λ r. r ≡ binary operator (Some u.now) (Some v.now)) }
{
    let Some(facts) = operator_facts(operator, &u.facts, &v.facts)? else {
        return Ok(None);
    };
    let worth = worth_of_two(alloc, operator, &u.worth, &v.worth)?;
    Ok(Some(Valued { facts, worth }))
}

pub fn binary(
    alloc: Global,
    operator: Operator,
    u: &Option<Valued>,
    v: &Option<Valued>,
) -> Result<Option<Valued>, AllocError>
    ensures { IfOk result (λ r. r ≡ binary operator u.now v.now) }
{
    let Some(u) = u else {
        return Ok(None);
    };
    let Some(v) = v else {
        return Ok(None);
    };
    binary_of(alloc, operator, u, v)
}

fn signed_of(sign: Sign, v: Valued) -> Option<Valued>
    ensures { result ≡ signed sign (Some v) }
{
    let Valued { facts, worth } = v;
    let told = sign_facts(sign, &facts)?;
    Some(Valued {
        facts: told,
        worth: worth_of_one(sign, worth),
    })
}

pub fn signed(sign: Sign, v: Option<Valued>) -> Option<Valued>
    ensures { result ≡ signed sign v }
{
    match v {
        None => None,
        Some(v) => signed_of(sign, v),
    }
}

fn literal_facts(x: &Scalar) -> Facts
    ensures { valued_as result (Is x.now) ≡ literal x.now }
{
    match x {
        Scalar::Int(_) => an_integer(),
        Scalar::Log(_) => a_truth(),
        Scalar::Text(bytes) => a_text(Some(bytes.len())),
    }
}

pub fn literal(x: Scalar) -> Valued
    ensures { result ≡ literal x }
{
    let facts = literal_facts(&x);
    Valued {
        facts,
        worth: Worth::Is(x),
    }
}
