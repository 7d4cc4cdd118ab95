//! The table of levels, as `Levels` of `f95_tree` has it.

ghost use Rattle.std.specs.Prelude.{◌≡◌};
ghost use Rattle.f95_tree.specs.Levels.{level, left_of, right_of, sign_level, under_sign};

use f95_tree::{Operator, Sign};

pub fn level(operator: Operator) -> u8
    ensures { result ≡ level operator }
{
    match operator {
        Operator::Power => 9,
        Operator::Multiply => 8,
        Operator::Divide => 8,
        Operator::Add => 7,
        Operator::Subtract => 7,
        Operator::Concat => 6,
        Operator::Relation(_) => 5,
        Operator::And => 3,
        Operator::Or => 2,
        Operator::Equivalent => 1,
        Operator::NotEquivalent => 1,
    }
}

pub fn left_of(operator: Operator) -> u8
    ensures { result ≡ left_of operator }
{
    match operator {
        Operator::Power => 10,
        Operator::Relation(_) => 6,
        _ => level(operator),
    }
}

pub fn right_of(operator: Operator) -> u8
    ensures { result ≡ right_of operator }
{
    match operator {
        Operator::Power => 9,
        _ => level(operator) + 1,
    }
}

pub fn sign_level(sign: Sign) -> u8
    ensures { result ≡ sign_level sign }
{
    match sign {
        Sign::Plus => 7,
        Sign::Minus => 7,
        Sign::Not => 4,
    }
}

pub fn under_sign(sign: Sign) -> u8
    ensures { result ≡ under_sign sign }
{
    sign_level(sign) + 1
}
