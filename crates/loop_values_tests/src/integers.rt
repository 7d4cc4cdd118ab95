//! The built-ins on integers, at their edges.
use loop_tree::{Operator, StuckState};
use loop_values::{operation, power, wrap, xor};

/// Two integers, and what they give or the number of the stuck state.
type Binary = (i64, i64, Result<i64, u8>);

const OPERATIONS: [(Operator, i64, i64, Result<i64, u8>); 20] = [
    (Operator::Add, i64::MAX, 1, Ok(i64::MIN)),
    (Operator::Subtract, i64::MIN, 1, Ok(i64::MAX)),
    (Operator::Multiply, 1 << 62, 4, Ok(0)),
    (Operator::Multiply, -3, 5, Ok(-15)),
    (Operator::Divide, 7, 2, Ok(3)),
    (Operator::Divide, -7, 2, Ok(-3)),
    (Operator::Divide, i64::MIN, -1, Ok(i64::MIN)),
    (Operator::Divide, 1, 0, Err(3)),
    (Operator::Remainder, 7, -2, Ok(1)),
    (Operator::Remainder, -7, 2, Ok(-1)),
    (Operator::Remainder, i64::MIN, -1, Ok(0)),
    (Operator::Remainder, 1, 0, Err(3)),
    (Operator::Less, -1, 0, Ok(1)),
    (Operator::Less, 0, 0, Ok(0)),
    (Operator::LessEqual, 0, 0, Ok(1)),
    (Operator::Equal, 2, 2, Ok(1)),
    (Operator::NotEqual, 2, 2, Ok(0)),
    (Operator::And, 6, 3, Ok(2)),
    (Operator::And, -1, 5, Ok(5)),
    (Operator::Or, 6, 3, Ok(7)),
];

const EXCLUSIVE_ORS: [(i64, i64, i64); 2] = [(6, 3, 5), (-1, 0, -1)];

const WRAPS: [(i64, i64); 3] = [(1 << 31, -2147483648), (-1, -1), (1 << 32, 0)];

const POWERS: [Binary; 10] = [
    (2, 10, Ok(1024)),
    (2, 31, Ok(-2147483648)),
    (2, 32, Ok(0)),
    (-3, 3, Ok(-27)),
    (3, 40, Ok(689956897)),
    (0, 0, Ok(1)),
    ((1 << 32) + 5, 2, Ok(25)),
    (1, 2147483647, Ok(1)),
    (2, -1, Err(9)),
    (2, 1 << 31, Err(9)),
];

fn numbered(answer: Result<i64, StuckState>) -> Result<i64, u8> {
    match answer {
        Ok(value) => Ok(value),
        Err(why) => Err(why.number()),
    }
}

fn first_wrong_operation(rows: &[(Operator, i64, i64, Result<i64, u8>)]) -> Option<usize> {
    for (row, (op, x, y, want)) in rows.iter().enumerate() {
        if numbered(operation(*op, *x, *y)) != *want {
            return Some(row);
        }
    }
    None
}

fn first_wrong_power(rows: &[Binary]) -> Option<usize> {
    for (row, (x, y, want)) in rows.iter().enumerate() {
        if numbered(power(*x, *y)) != *want {
            return Some(row);
        }
    }
    None
}

#[test]
fn operators_compute(rt: HostRuntime) {
    assert_eq!(rt; first_wrong_operation(&OPERATIONS), None);
    assert_eq!(rt; first_wrong_power(&POWERS), None);
    for (x, y, want) in &EXCLUSIVE_ORS {
        assert!(rt; xor(*x, *y) == *want);
    }
    for (x, want) in &WRAPS {
        assert!(rt; wrap(*x) == *want);
    }
}
