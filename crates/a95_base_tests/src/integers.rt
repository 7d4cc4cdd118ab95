//! Arithmetic of the 32-bit INTEGER at its edges, and the numbers of faults.
use a95_base::{
    FaultKind, divide, integer_laws, modulo, power, raise, remainder, step_laws, wrap32,
};

const LEAST: i32 = i32::MIN;

const GREATEST: i32 = i32::MAX;

const WRAPS: [(i64, i32); 9] = [
    (0, 0),
    (-1, -1),
    (2147483647, 2147483647),
    (2147483648, -2147483648),
    (-2147483648, -2147483648),
    (-2147483649, 2147483647),
    (4294967296, 0),
    (i64::MAX, -1),
    (i64::MIN, 0),
];

/// Two integers, and what they give.
type Binary = (i32, i32, Option<i32>);

const QUOTIENTS: [Binary; 14] = [
    (7, 2, Some(3)),
    (-7, 2, Some(-3)),
    (7, -2, Some(-3)),
    (-7, -2, Some(3)),
    (0, 5, Some(0)),
    (5, 0, None),
    (0, 0, None),
    (LEAST, 0, None),
    (LEAST, -1, Some(LEAST)),
    (LEAST, 1, Some(LEAST)),
    (LEAST, LEAST, Some(1)),
    (GREATEST, LEAST, Some(0)),
    (LEAST, GREATEST, Some(-1)),
    (LEAST, 2, Some(-1073741824)),
];

/// Two integers, their MOD and their MODULO.
type Remainders = (i32, i32, Option<i32>, Option<i32>);

const REMAINDERS: [Remainders; 19] = [
    (8, 5, Some(3), Some(3)),
    (-8, 5, Some(-3), Some(2)),
    (8, -5, Some(3), Some(-2)),
    (-8, -5, Some(-3), Some(-3)),
    (10, 5, Some(0), Some(0)),
    (-10, 5, Some(0), Some(0)),
    (10, -5, Some(0), Some(0)),
    (-10, -5, Some(0), Some(0)),
    (0, -5, Some(0), Some(0)),
    (5, 0, None, None),
    (0, 0, None, None),
    (LEAST, -1, Some(0), Some(0)),
    (LEAST, 1, Some(0), Some(0)),
    (LEAST, LEAST, Some(0), Some(0)),
    (LEAST, GREATEST, Some(-1), Some(2147483646)),
    (GREATEST, LEAST, Some(2147483647), Some(-1)),
    (1, LEAST, Some(1), Some(-2147483647)),
    (-1, LEAST, Some(-1), Some(-1)),
    (-1, GREATEST, Some(-1), Some(2147483646)),
];

const POWERS: [Binary; 25] = [
    (2, 10, Some(1024)),
    (2, 30, Some(1073741824)),
    (2, 31, Some(LEAST)),
    (2, 32, Some(0)),
    (-2, 3, Some(-8)),
    (-2, 31, Some(LEAST)),
    (3, 21, Some(1870418611)),
    (7, 0, Some(1)),
    (0, 0, Some(1)),
    (0, 1, Some(0)),
    (0, GREATEST, Some(0)),
    (0, -1, None),
    (0, LEAST, None),
    (1, -1, Some(1)),
    (1, LEAST, Some(1)),
    (-1, -1, Some(-1)),
    (-1, -2, Some(1)),
    (-1, LEAST, Some(1)),
    (-1, GREATEST, Some(-1)),
    (2, -1, Some(0)),
    (-2, -1, Some(0)),
    (LEAST, -3, Some(0)),
    (GREATEST, 2, Some(1)),
    (LEAST, 1, Some(LEAST)),
    (LEAST, 2, Some(0)),
];

/// Powers by exponents that no INTEGER has too. 3 to the power 2^30 is 1 modulo 2^32.
const RAISED: [(i32, u32, i32); 6] = [
    (0, 0, 1),
    (1, u32::MAX, 1),
    (-1, u32::MAX, -1),
    (2, u32::MAX, 0),
    (3, 2147483648, 1),
    (3, u32::MAX, -1431655765),
];

fn first_wrong_wrap(rows: &[(i64, i32)]) -> Option<usize> {
    for (row, (x, want)) in rows.iter().enumerate() {
        if wrap32(*x) != *want {
            return Some(row);
        }
    }
    None
}

fn first_wrong_quotient(rows: &[Binary]) -> Option<usize> {
    for (row, (a, b, want)) in rows.iter().enumerate() {
        if divide(*a, *b) != *want {
            return Some(row);
        }
    }
    None
}

fn first_wrong_remainder(rows: &[Remainders]) -> Option<usize> {
    for (row, (a, p, rest, near)) in rows.iter().enumerate() {
        if remainder(*a, *p) != *rest || modulo(*a, *p) != *near {
            return Some(row);
        }
    }
    None
}

fn first_wrong_power(rows: &[Binary]) -> Option<usize> {
    for (row, (a, n, want)) in rows.iter().enumerate() {
        if power(*a, *n) != *want {
            return Some(row);
        }
    }
    None
}

fn first_wrong_raised(rows: &[(i32, u32, i32)]) -> Option<usize> {
    for (row, (a, exponent, want)) in rows.iter().enumerate() {
        if raise(*a, *exponent) != *want {
            return Some(row);
        }
    }
    None
}

#[test]
fn integers_wrap(rt: HostRuntime) {
    integer_laws();
    assert_eq!(rt; first_wrong_wrap(&WRAPS), None);
}

#[test]
fn quotients_and_remainders_have_their_signs(rt: HostRuntime) {
    assert_eq!(rt; first_wrong_quotient(&QUOTIENTS), None);
    assert_eq!(rt; first_wrong_remainder(&REMAINDERS), None);
}

#[test]
fn powers_wrap(rt: HostRuntime) {
    assert_eq!(rt; first_wrong_power(&POWERS), None);
    assert_eq!(rt; first_wrong_raised(&RAISED), None);
}

/// The first number whose kind has another number, or that wrongly has a kind or none.
fn first_wrong_fault() -> Option<u8> {
    for number in 0..=255 {
        let want = if number >= 1 && number <= 15 {
            Some(number)
        } else {
            None
        };
        let found = match FaultKind::from_number(number) {
            Some(kind) => Some(kind.number()),
            None => None,
        };
        if found != want {
            return Some(number);
        }
    }
    None
}

#[test]
fn faults_have_numbers(rt: HostRuntime) {
    step_laws::<u8, u8, u8, u8, u8>();
    assert_eq!(rt; first_wrong_fault(), None);
}
