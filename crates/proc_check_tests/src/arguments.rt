//! Arguments that match their dummies, and arguments that don't.
use crate::built::{Actual, Body, Prefix, Step, Steps, Told, Value, Variable, first_wrong};
use f95_unit::{DeclaredType, Intent, Length, Role};
use std::test::Fail;

const INTEGER: DeclaredType = DeclaredType::Integer;

const THREE: DeclaredType = DeclaredType::Character(Length::Fixed(3));

const ANY_LENGTH: DeclaredType = DeclaredType::Character(Length::Assumed);

/// Of the main program: an INTEGER scalar, an INTEGER array, another one, a CHARACTER.
const OWN: &[Variable] = &[
    Variable(2, INTEGER, 0, Role::Own),
    Variable(2, INTEGER, 1, Role::Own),
    Variable(2, INTEGER, 1, Role::Own),
    Variable(3, THREE, 0, Role::Own),
];

const I: Value = Value::Whole(0, 0);

/// Procedures 0 to 7: of two IN scalars; of an OUT scalar; of an INOUT array; of two CHARACTERs; a pure function of an IN scalar;
/// an ELEMENTAL function of two scalars; an ELEMENTAL subroutine of a scalar; of an OUT CHARACTER.
const ALL: &[Body] = &[
    Body(
        20,
        Prefix::None,
        &[
            Variable(21, INTEGER, 0, Role::Dummy(1, Intent::In)),
            Variable(21, INTEGER, 0, Role::Dummy(0, Intent::In)),
        ],
        None,
        &[],
    ),
    Body(
        30,
        Prefix::None,
        &[Variable(31, INTEGER, 0, Role::Dummy(0, Intent::Out))],
        None,
        &[],
    ),
    Body(
        40,
        Prefix::None,
        &[Variable(41, INTEGER, 1, Role::Dummy(0, Intent::InOut))],
        None,
        &[],
    ),
    Body(
        50,
        Prefix::None,
        &[
            Variable(51, THREE, 0, Role::Dummy(0, Intent::In)),
            Variable(52, ANY_LENGTH, 0, Role::Dummy(1, Intent::In)),
        ],
        None,
        &[],
    ),
    Body(
        60,
        Prefix::Pure,
        &[
            Variable(61, INTEGER, 0, Role::Own),
            Variable(62, INTEGER, 0, Role::Dummy(0, Intent::In)),
        ],
        Some(0),
        &[],
    ),
    Body(
        70,
        Prefix::Elemental,
        &[
            Variable(71, INTEGER, 0, Role::Dummy(0, Intent::In)),
            Variable(71, INTEGER, 0, Role::Dummy(1, Intent::In)),
            Variable(72, INTEGER, 0, Role::Own),
        ],
        Some(2),
        &[],
    ),
    Body(
        80,
        Prefix::Elemental,
        &[Variable(81, INTEGER, 0, Role::Dummy(0, Intent::InOut))],
        None,
        &[],
    ),
    Body(
        90,
        Prefix::None,
        &[Variable(91, ANY_LENGTH, 0, Role::Dummy(0, Intent::Out))],
        None,
        &[],
    ),
];

const NUMBERS: [(Steps, Told); 12] = [
    (
        &[Step::Call(4, 0, &[Actual(0, I), Actual(1, Value::One)])],
        None,
    ),
    (
        &[Step::Call(4, 0, &[Actual(1, I), Actual(0, Value::One)])],
        None,
    ),
    (&[Step::Call(4, 0, &[Actual(0, I)])], Some((4, 41))),
    (&[Step::Call(4, 0, &[])], Some((4, 41))),
    (
        &[Step::Call(4, 0, &[Actual(0, I), Actual(1, I), Actual(2, I)])],
        Some((4, 41)),
    ),
    (
        &[Step::Call(4, 0, &[Actual(0, I), Actual(0, I)])],
        Some((4, 41)),
    ),
    (
        &[Step::Call(4, 0, &[Actual(0, I), Actual(9, I)])],
        Some((4, 41)),
    ),
    (&[Step::Call(4, 8, &[])], Some((4, 41))),
    (&[Step::Call(4, 4, &[Actual(0, I)])], Some((4, 41))),
    (
        &[Step::Set(4, Value::Reference(4, 0, &[Actual(0, I)]))],
        None,
    ),
    (
        &[Step::Set(4, Value::Reference(1, 0, &[Actual(0, I)]))],
        Some((4, 41)),
    ),
    (
        &[
            Step::Call(5, 0, &[Actual(0, I)]),
            Step::Call(6, 1, &[Actual(0, Value::One)]),
            Step::Call(4, 1, &[Actual(0, Value::One)]),
        ],
        Some((4, 42)),
    ),
];

#[test]
fn numbers_and_keywords(rt: HostRuntime) -> Result<(), Fail> {
    assert_eq!(rt; first_wrong(rt.alloc(), OWN, ALL, &NUMBERS)?, None);
    Ok(())
}

const KINDS: [(Steps, Told); 10] = [
    (
        &[Step::Call(4, 0, &[Actual(0, I), Actual(1, Value::Truth)])],
        Some((4, 41)),
    ),
    (
        &[Step::Call(4, 0, &[Actual(0, I), Actual(1, Value::Whole(1, 1))])],
        Some((4, 41)),
    ),
    (&[Step::Call(4, 2, &[Actual(0, Value::Whole(1, 1))])], None),
    (&[Step::Call(4, 2, &[Actual(0, I)])], Some((4, 41))),
    (
        &[Step::Call(4, 2, &[Actual(0, Value::Whole(1, 2))])],
        Some((4, 41)),
    ),
    (
        &[Step::Set(
            4,
            Value::Reference(5, 1, &[Actual(0, Value::Whole(1, 1)), Actual(1, I)]),
        )],
        None,
    ),
    (
        &[Step::Set(
            4,
            Value::Reference(
                5,
                1,
                &[Actual(0, Value::Whole(1, 1)), Actual(1, Value::Whole(2, 2))],
            ),
        )],
        Some((4, 41)),
    ),
    (&[Step::Call(4, 6, &[Actual(0, I)])], None),
    (
        &[Step::Call(4, 6, &[Actual(0, Value::Whole(1, 1))])],
        Some((4, 44)),
    ),
    (
        &[Step::Call(4, 6, &[Actual(0, Value::Truth)])],
        Some((4, 41)),
    ),
];

#[test]
fn kinds_and_ranks(rt: HostRuntime) -> Result<(), Fail> {
    assert_eq!(rt; first_wrong(rt.alloc(), OWN, ALL, &KINDS)?, None);
    Ok(())
}

const STORED: [(Steps, Told); 14] = [
    (&[Step::Call(4, 1, &[Actual(0, I)])], None),
    (&[Step::Call(4, 1, &[Actual(0, Value::Element(1))])], None),
    (&[Step::Call(4, 1, &[Actual(0, Value::One)])], Some((4, 42))),
    (
        &[Step::Call(4, 1, &[Actual(0, Value::Bracketed(&I))])],
        Some((4, 42)),
    ),
    (&[Step::Call(4, 2, &[Actual(0, Value::Section(1))])], None),
    (
        &[Step::Call(4, 2, &[Actual(0, Value::Gathered(1, 2))])],
        Some((4, 42)),
    ),
    (
        &[Step::Call(4, 7, &[Actual(0, Value::Text(3, Some(3)))])],
        None,
    ),
    (
        &[Step::Call(4, 7, &[Actual(0, Value::Byte(3))])],
        Some((4, 42)),
    ),
    (
        &[Step::Call(4, 1, &[Actual(0, Value::Whole(9, 0))])],
        Some((4, 42)),
    ),
    (
        &[Step::Do(4, 0, &[Step::Call(5, 1, &[Actual(0, I)])])],
        Some((5, 42)),
    ),
    (
        &[Step::Do(4, 0, &[Step::Call(5, 1, &[Actual(0, Value::Element(1))])])],
        None,
    ),
    (
        &[Step::Do(4, 0, &[]), Step::Call(5, 1, &[Actual(0, I)])],
        None,
    ),
    (
        &[Step::Do(
            4,
            0,
            &[Step::If(5, Value::Truth, &[Step::Call(6, 1, &[Actual(0, I)])])],
        )],
        Some((6, 42)),
    ),
    (
        &[Step::Do(4, 0, &[Step::Call(5, 0, &[Actual(0, I), Actual(1, I)])])],
        None,
    ),
];

#[test]
fn what_may_be_stored(rt: HostRuntime) -> Result<(), Fail> {
    assert_eq!(rt; first_wrong(rt.alloc(), OWN, ALL, &STORED)?, None);
    Ok(())
}

const LENGTHS: [(Steps, Told); 5] = [
    (
        &[Step::Call(
            4,
            3,
            &[
                Actual(0, Value::Text(3, Some(3))),
                Actual(1, Value::Text(3, Some(3))),
            ],
        )],
        None,
    ),
    (
        &[Step::Call(
            4,
            3,
            &[
                Actual(0, Value::Text(3, Some(4))),
                Actual(1, Value::Text(3, Some(3))),
            ],
        )],
        Some((4, 46)),
    ),
    (
        &[Step::Call(
            4,
            3,
            &[
                Actual(0, Value::Text(3, None)),
                Actual(1, Value::Text(3, Some(9))),
            ],
        )],
        None,
    ),
    (
        &[Step::Call(
            4,
            3,
            &[Actual(0, Value::Byte(3)), Actual(1, Value::Byte(3))],
        )],
        Some((4, 46)),
    ),
    (
        &[Step::Call(4, 3, &[Actual(0, Value::Byte(3)), Actual(1, I)])],
        Some((4, 41)),
    ),
];

#[test]
fn lengths_of_texts(rt: HostRuntime) -> Result<(), Fail> {
    assert_eq!(rt; first_wrong(rt.alloc(), OWN, ALL, &LENGTHS)?, None);
    Ok(())
}

const INSIDE: [(Steps, Told); 4] = [
    (
        &[Step::Print(4, &[Value::Sum(&Value::One, &Value::Reference(4, 0, &[]))])],
        Some((4, 41)),
    ),
    (
        &[Step::Print(
            4,
            &[Value::Absolute(&Value::Reference(4, 0, &[Actual(0, Value::Truth)]))],
        )],
        Some((4, 41)),
    ),
    (
        &[Step::If(4, Value::Reference(4, 0, &[]), &[Step::Call(5, 1, &[])])],
        Some((4, 41)),
    ),
    (
        &[Step::Call(4, 1, &[Actual(0, Value::Reference(4, 0, &[Actual(0, I)]))])],
        Some((4, 42)),
    ),
];

#[test]
fn references_inside(rt: HostRuntime) -> Result<(), Fail> {
    assert_eq!(rt; first_wrong(rt.alloc(), OWN, ALL, &INSIDE)?, None);
    Ok(())
}
