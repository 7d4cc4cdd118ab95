//! What procedures may be and do by their prefixes.
use crate::built::{Actual, Bodies, Body, Prefix, Step, Told, Value, Variable, first_wrong_of};
use f95_unit::{DeclaredType, Intent, Role};
use std::test::Fail;

const INTEGER: DeclaredType = DeclaredType::Integer;

const RESULT: Variable = Variable(5, INTEGER, 0, Role::Own);

const PURE: [(Bodies, Told); 10] = [
    (
        &[Body(4, Prefix::None, &[RESULT], Some(0), &[])],
        Some((4, 43)),
    ),
    (
        &[Body(4, Prefix::Recursive, &[RESULT], Some(0), &[])],
        Some((4, 43)),
    ),
    (&[Body(4, Prefix::Pure, &[RESULT], Some(0), &[])], None),
    (&[Body(4, Prefix::Elemental, &[RESULT], Some(0), &[])], None),
    (
        &[Body(
            4,
            Prefix::Pure,
            &[RESULT, Variable(6, INTEGER, 0, Role::Dummy(0, Intent::Out))],
            Some(0),
            &[],
        )],
        Some((6, 43)),
    ),
    (
        &[Body(4, Prefix::Pure, &[], None, &[Step::Print(5, &[])])],
        Some((5, 43)),
    ),
    (
        &[Body(4, Prefix::Elemental, &[], None, &[Step::Read(5)])],
        Some((5, 43)),
    ),
    (
        &[Body(
            4,
            Prefix::Pure,
            &[],
            None,
            &[Step::If(5, Value::Truth, &[Step::Stop(6)])],
        )],
        Some((6, 43)),
    ),
    (
        &[Body(4, Prefix::Pure, &[], None, &[Step::Return(5)])],
        None,
    ),
    (
        &[Body(
            4,
            Prefix::None,
            &[],
            None,
            &[Step::Print(5, &[]), Step::Stop(6)],
        )],
        None,
    ),
];

/// An IN dummy may not be handed on to an OUT or INOUT dummy, an INOUT dummy may.
const HANDED_ON: [(Bodies, Told); 2] = [
    (
        &[
            Body(
                4,
                Prefix::None,
                &[Variable(5, INTEGER, 0, Role::Dummy(0, Intent::In))],
                None,
                &[Step::Call(6, 1, &[Actual(0, Value::Whole(0, 0))])],
            ),
            Body(
                8,
                Prefix::None,
                &[Variable(9, INTEGER, 0, Role::Dummy(0, Intent::Out))],
                None,
                &[],
            ),
        ],
        Some((6, 42)),
    ),
    (
        &[
            Body(
                4,
                Prefix::None,
                &[Variable(5, INTEGER, 0, Role::Dummy(0, Intent::InOut))],
                None,
                &[Step::Call(6, 1, &[Actual(0, Value::Whole(0, 0))])],
            ),
            Body(
                8,
                Prefix::None,
                &[Variable(9, INTEGER, 0, Role::Dummy(0, Intent::Out))],
                None,
                &[],
            ),
        ],
        None,
    ),
];

#[test]
fn dummies_handed_on(rt: HostRuntime) -> Result<(), Fail> {
    assert_eq!(rt; first_wrong_of(rt.alloc(), &HANDED_ON)?, None);
    Ok(())
}

#[test]
fn pure_procedures(rt: HostRuntime) -> Result<(), Fail> {
    assert_eq!(rt; first_wrong_of(rt.alloc(), &PURE)?, None);
    Ok(())
}

const CALLS: [(Bodies, Told); 7] = [
    (
        &[
            Body(4, Prefix::Pure, &[], None, &[Step::Call(5, 1, &[])]),
            Body(7, Prefix::None, &[], None, &[]),
        ],
        Some((5, 43)),
    ),
    (
        &[
            Body(4, Prefix::Pure, &[], None, &[Step::Call(5, 1, &[])]),
            Body(7, Prefix::Elemental, &[], None, &[]),
        ],
        None,
    ),
    (
        &[Body(4, Prefix::None, &[], None, &[Step::Call(5, 0, &[])])],
        Some((5, 45)),
    ),
    (
        &[Body(4, Prefix::Recursive, &[], None, &[Step::Call(5, 0, &[])])],
        None,
    ),
    (
        &[Body(
            4,
            Prefix::Pure,
            &[RESULT],
            Some(0),
            &[Step::Set(6, Value::Reference(0, 0, &[]))],
        )],
        Some((6, 45)),
    ),
    (
        &[
            Body(4, Prefix::None, &[], None, &[Step::Call(5, 1, &[])]),
            Body(7, Prefix::None, &[], None, &[Step::Call(8, 0, &[])]),
        ],
        None,
    ),
    (
        &[Body(
            4,
            Prefix::Pure,
            &[],
            None,
            &[Step::Call(5, 0, &[Actual(0, Value::One)])],
        )],
        Some((5, 41)),
    ),
];

#[test]
fn calls_of_procedures(rt: HostRuntime) -> Result<(), Fail> {
    assert_eq!(rt; first_wrong_of(rt.alloc(), &CALLS)?, None);
    Ok(())
}

const ELEMENTAL: [(Bodies, Told); 6] = [
    (
        &[Body(4, Prefix::RecursiveElemental, &[], None, &[])],
        Some((4, 44)),
    ),
    (
        &[Body(
            4,
            Prefix::Elemental,
            &[Variable(5, INTEGER, 1, Role::Dummy(0, Intent::In))],
            None,
            &[],
        )],
        Some((5, 44)),
    ),
    (
        &[Body(
            4,
            Prefix::Elemental,
            &[Variable(5, INTEGER, 1, Role::Own)],
            Some(0),
            &[],
        )],
        Some((5, 44)),
    ),
    (
        &[Body(
            4,
            Prefix::Elemental,
            &[RESULT, Variable(6, INTEGER, 1, Role::Own)],
            Some(0),
            &[],
        )],
        None,
    ),
    (
        &[Body(
            4,
            Prefix::Pure,
            &[Variable(5, INTEGER, 1, Role::Own)],
            Some(0),
            &[],
        )],
        None,
    ),
    (
        &[Body(
            4,
            Prefix::Elemental,
            &[Variable(5, INTEGER, 0, Role::Dummy(0, Intent::Out))],
            None,
            &[],
        )],
        None,
    ),
];

#[test]
fn elemental_procedures(rt: HostRuntime) -> Result<(), Fail> {
    assert_eq!(rt; first_wrong_of(rt.alloc(), &ELEMENTAL)?, None);
    Ok(())
}
