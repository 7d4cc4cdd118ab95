//! The built-ins on integers.
ghost use Rattle.std.specs.Prelude.{◌≡◌, ◌+ℤ◌, ◌-ℤ◌, ◌*ℤ◌};
ghost use Rattle.std.specs.Int.{w64, int_wrap, int_bit_xor};
ghost use Rattle.a95_base.specs.Integer.{wrapped};
ghost use Rattle.loop_tree.specs.Values.{operation, power, quotient, remainder, truth};

use a95_base::{raise, wrap32};
use loop_tree::{Operator, StuckState};

/// What is left of the sum in 64 bits.
#[tactic(auto, using(std::proofs::lemmas::Int::wrapping_add_is))]
#[inline]
pub fn sum(x: i64, y: i64) -> i64
    ensures { result ≡ int_wrap w64 (x +ℤ y) }
{
    x.wrapping_add(y)
}

/// What is left of the difference in 64 bits.
#[tactic(auto, using(std::proofs::lemmas::Int::wrapping_sub_is))]
#[inline]
pub fn difference(x: i64, y: i64) -> i64
    ensures { result ≡ int_wrap w64 (x -ℤ y) }
{
    x.wrapping_sub(y)
}

/// What is left of the product in 64 bits.
#[inline]
pub fn product(x: i64, y: i64) -> i64
    ensures { result ≡ int_wrap w64 (x *ℤ y) }
{
    x.wrapping_mul(y)
}

/// What an operator gives. Arithmetic wraps at 64 bits, and division cuts off toward 0. `ZeroDivisor`: the divisor is 0.
#[tactic(auto, unfolding(loop_tree::specs::Values::operation))]
pub fn operation(op: Operator, x: i64, y: i64) -> Result<i64, StuckState>
    ensures { result ≡ operation op x y }
{
    match op {
        Operator::Add => Ok(sum(x, y)),
        Operator::Subtract => Ok(difference(x, y)),
        Operator::Multiply => Ok(product(x, y)),
        Operator::Divide => quotient(x, y),
        Operator::Remainder => remainder(x, y),
        Operator::Less => Ok(truth(x < y)),
        Operator::LessEqual => Ok(truth(x <= y)),
        Operator::Equal => Ok(truth(x == y)),
        Operator::NotEqual => Ok(truth(x != y)),
        Operator::And => Ok(x & y),
        Operator::Or => Ok(x | y),
    }
}

fn quotient(x: i64, y: i64) -> Result<i64, StuckState>
    ensures { result ≡ quotient x y }
{
    if y == 0 {
        return Err(StuckState::ZeroDivisor);
    }
    Ok(x.wrapping_div(y))
}

fn remainder(x: i64, y: i64) -> Result<i64, StuckState>
    ensures { result ≡ remainder x y }
{
    if y == 0 {
        return Err(StuckState::ZeroDivisor);
    }
    Ok(x.wrapping_rem(y))
}

/// 1 where it holds, else 0.
pub fn truth(b: bool) -> i64
    ensures { result ≡ truth b }
{
    i64::from(b)
}

/// What is left in 32 bits.
pub fn wrap(x: i64) -> i64
    ensures { result ≡ wrapped x }
{
    i64::from(wrap32(x))
}

/// The power of two numbers of 32 bits. `NegativeExponent`: the exponent is.
pub fn power(x: i64, y: i64) -> Result<i64, StuckState>
    ensures { result ≡ power x y }
{
    match u32::try_from(wrap32(y)) {
        Ok(exponent) => Ok(i64::from(raise(wrap32(x), exponent))),
        Err(_) => Err(StuckState::NegativeExponent),
    }
}

pub fn xor(x: i64, y: i64) -> i64
    ensures { result ≡ int_bit_xor w64 x y }
{
    x ^ y
}
