//! Operators on scalars whose values are known. Where an operation on INTEGERs leaves 32 bits, or has a fault, the value is spoilt.
ghost use Rattle.std.specs.Prelude.{◌≡◌, ◌+ℤ◌, ◌-ℤ◌, ◌*ℤ◌, neg_ℤ, pos, ◌++◌, ◌&&◌, ◌||◌, IfOk};
ghost use Rattle.a95_base.specs.declared.scalar.Scalar.TheVariants as scalar;
ghost use Rattle.constant_operators.specs.declared.value.Worth.TheVariants.{Is};
ghost use Rattle.constant_operators.specs.Operators.{integer_of, truth_of, text_of, within, integer_or_spoilt, text_or_spoilt};
ghost use Rattle.constant_operators.specs.Operators.{quotient_within, power_within, compared, stands, are_equivalent, operated};
ghost use Rattle.constant_operators.specs.Operators.{signed_value};

use crate::value::Worth;
use a95_base::{Bytes, Scalar, compare_padded, power};
use f95_tree::{Operator, Relation, Sign};
use std::alloc::{AllocError, Global};
use std::cmp::Ordering;

pub fn integer_of(x: &Scalar) -> i32
    ensures { result ≡ integer_of x.now }
{
    match x {
        Scalar::Int(z) => *z,
        Scalar::Log(_) => 0,
        Scalar::Text(_) => 0,
    }
}

pub fn truth_of(x: &Scalar) -> bool
    ensures { result ≡ truth_of x.now }
{
    match x {
        Scalar::Int(_) => false,
        Scalar::Log(b) => *b,
        Scalar::Text(_) => false,
    }
}

pub fn text_of(x: &Scalar) -> &[u8]
    ensures { result.now ≡ text_of x.now }
{
    match x {
        Scalar::Int(_) => &[],
        Scalar::Log(_) => &[],
        Scalar::Text(bytes) => bytes.as_slice(),
    }
}

pub fn integer(z: i32) -> Worth
    ensures { result ≡ Is (scalar.Int z) }
{
    Worth::Is(Scalar::Int(z))
}

pub fn truth(b: bool) -> Worth
    ensures { result ≡ Is (scalar.Log b) }
{
    Worth::Is(Scalar::Log(b))
}

pub fn integer_or_spoilt(z: Option<i32>) -> Worth
    ensures { result ≡ integer_or_spoilt z }
{
    match z {
        None => Worth::Spoilt,
        Some(z) => integer(z),
    }
}

pub fn text_or_spoilt(text: Option<Bytes>) -> Worth
    ensures { result ≡ text_or_spoilt text }
{
    match text {
        None => Worth::Spoilt,
        Some(text) => Worth::Is(Scalar::Text(text)),
    }
}

fn sum(x: i32, y: i32) -> Worth
    ensures { result ≡ within (x +ℤ y) }
{
    integer_or_spoilt(x.checked_add(y))
}

fn difference(x: i32, y: i32) -> Worth
    ensures { result ≡ within (x -ℤ y) }
{
    integer_or_spoilt(x.checked_sub(y))
}

fn negated(x: i32) -> Worth
    ensures { result ≡ within (neg_ℤ x) }
{
    integer_or_spoilt(x.checked_neg())
}

fn product(x: i32, y: i32) -> Worth
    ensures { result ≡ within (x *ℤ y) }
{
    integer_or_spoilt(x.checked_mul(y))
}

fn raised(x: i32, n: u32) -> Worth
    ensures { result ≡ power_within x (pos n) }
{
    integer_or_spoilt(x.checked_pow(n))
}

fn power_within(x: i32, y: i32) -> Worth
    ensures { result ≡ power_within x y }
{
    match u32::try_from(y) {
        Ok(n) => raised(x, n),
        Err(_) => integer_or_spoilt(power(x, y)),
    }
}

fn quotient(x: i32, y: i32) -> Worth
    ensures { result ≡ quotient_within x y }
{
    if y == 0 {
        return Worth::Spoilt;
    }
    integer_or_spoilt(x.checked_div(y))
}

fn integer_order(x: i32, y: &Scalar) -> Ordering
    ensures { result ≡ compared (scalar.Int x) y.now }
{
    match y {
        Scalar::Int(y) => x.cmp(y),
        Scalar::Log(_) => Ordering::Equal,
        Scalar::Text(_) => Ordering::Equal,
    }
}

fn text_order(x: &[u8], y: &Scalar) -> Ordering
    ensures { result ≡ compared (scalar.Text x.now) y.now }
{
    match y {
        Scalar::Int(_) => Ordering::Equal,
        Scalar::Log(_) => Ordering::Equal,
        Scalar::Text(y) => compare_padded(x, y.as_slice()),
    }
}

/// The order of two integers, or of two texts padded to one length; equal otherwise.
pub fn compared(x: &Scalar, y: &Scalar) -> Ordering
    ensures { result ≡ compared x.now y.now }
{
    match x {
        Scalar::Int(x) => integer_order(*x, y),
        Scalar::Log(_) => Ordering::Equal,
        Scalar::Text(x) => text_order(x.as_slice(), y),
    }
}

fn stands(relation: Relation, order: Ordering) -> bool
    ensures { result ≡ stands relation order }
{
    match relation {
        Relation::Equal => order.is_eq(),
        Relation::NotEqual => order.is_ne(),
        Relation::Less => order.is_lt(),
        Relation::LessEqual => order.is_le(),
        Relation::Greater => order.is_gt(),
        Relation::GreaterEqual => order.is_ge(),
    }
}

fn both(a: bool, b: bool) -> bool
    ensures { result ≡ (a && b) }
{
    a && b
}

fn either(a: bool, b: bool) -> bool
    ensures { result ≡ (a || b) }
{
    a || b
}

/// Whether both hold or neither.
pub fn are_equivalent(a: bool, b: bool) -> bool
    ensures { result ≡ are_equivalent a b }
{
    if a { b } else { !b }
}

/// One text behind another.
fn joined(alloc: Global, front: &[u8], back: &[u8]) -> Result<Worth, AllocError>
    ensures { IfOk result (λ w. w ≡ Is (scalar.Text (front.now ++ back.now))) }
{
    let mut bytes = Vec::with_capacity(alloc, front.len())?;
    bytes.extend_from_slice(front)?;
    bytes.extend_from_slice(back)?;
    Ok(Worth::Is(Scalar::Text(Bytes::from_vec(bytes))))
}

/// What an operator makes of two scalars.
pub fn operated(
    alloc: Global,
    operator: Operator,
    x: &Scalar,
    y: &Scalar,
) -> Result<Worth, AllocError>
    ensures { IfOk result (λ w. w ≡ operated operator x.now y.now) }
{
    match operator {
        Operator::Power => Ok(power_within(integer_of(x), integer_of(y))),
        Operator::Multiply => Ok(product(integer_of(x), integer_of(y))),
        Operator::Divide => Ok(quotient(integer_of(x), integer_of(y))),
        Operator::Add => Ok(sum(integer_of(x), integer_of(y))),
        Operator::Subtract => Ok(difference(integer_of(x), integer_of(y))),
        Operator::Concat => joined(alloc, text_of(x), text_of(y)),
        Operator::Relation(relation) => Ok(truth(stands(relation, compared(x, y)))),
        Operator::And => Ok(truth(both(truth_of(x), truth_of(y)))),
        Operator::Or => Ok(truth(either(truth_of(x), truth_of(y)))),
        Operator::Equivalent => Ok(truth(are_equivalent(truth_of(x), truth_of(y)))),
        Operator::NotEquivalent => Ok(truth(!are_equivalent(truth_of(x), truth_of(y)))),
    }
}

/// What a sign makes of a scalar.
pub fn signed_value(sign: Sign, x: Scalar) -> Worth
    ensures { result ≡ signed_value sign x }
{
    match sign {
        Sign::Plus => Worth::Is(x),
        Sign::Minus => negated(integer_of(&x)),
        Sign::Not => truth(!truth_of(&x)),
    }
}
