//! The built-ins on texts, at their edges.
use a95_base::Bytes;
use loop_heap::Halt;
use loop_tree::StuckState;
use loop_values::{char, code, compare, fit, index, join, left, over, right, sub, trim};
use std::alloc::{AllocError, Global};
use std::test::Fail;

const PLACES: [(&str, &str, i64); 8] = [
    ("banana", "na", 3),
    ("banana", "", 1),
    ("banana", "nab", 0),
    ("banana", "banana", 1),
    ("banana", "bananas", 0),
    ("", "", 1),
    ("", "a", 0),
    ("aaab", "ab", 3),
];

const CODES: [(&str, Result<i64, StuckState>); 3] = [
    ("A", Ok(65)),
    ("", Err(StuckState::OutsideText)),
    ("AB", Err(StuckState::OutsideText)),
];

const ORDERS: [(&str, &str, i64); 8] = [
    ("ab", "ab  ", 0),
    ("ab", "ac", -1),
    ("b", "ab", 1),
    ("ab", "ab!", -1),
    ("ab\t", "ab", -1),
    ("ab", "ab\t", 1),
    ("", "", 0),
    ("", "   ", 0),
];

fn first_wrong_place(rows: &[(&str, &str, i64)]) -> Option<usize> {
    for (row, (text, part, want)) in rows.iter().enumerate() {
        if index(text.as_bytes(), part.as_bytes()) != *want {
            return Some(row);
        }
    }
    None
}

fn first_wrong_order(rows: &[(&str, &str, i64)]) -> Option<usize> {
    for (row, (a, b, want)) in rows.iter().enumerate() {
        if compare(a.as_bytes(), b.as_bytes()) != *want {
            return Some(row);
        }
    }
    None
}

fn first_wrong_code(rows: &[(&str, Result<i64, StuckState>)]) -> Option<usize> {
    for (row, (text, want)) in rows.iter().enumerate() {
        if code(text.as_bytes()) != *want {
            return Some(row);
        }
    }
    None
}

#[test]
fn texts_are_looked_at(rt: HostRuntime) {
    assert_eq!(rt; first_wrong_place(&PLACES), None);
    assert_eq!(rt; first_wrong_order(&ORDERS), None);
    assert_eq!(rt; first_wrong_code(&CODES), None);
}

/// A text without its end blanks, with its front blanks at the end, and with its end blanks in front.
const BLANKS: [(&str, &str, &str, &str); 4] = [
    (" ab  ", " ab", "ab   ", "   ab"),
    ("   ", "", "   ", "   "),
    ("", "", "", ""),
    ("a b", "a b", "a b", "a b"),
];

fn blanks_are_moved(
    alloc: Global,
    text: &str,
    trimmed: &str,
    first: &str,
    last: &str,
) -> Result<bool, AllocError> {
    let text = text.as_bytes();
    Ok(
        trim(alloc, text)?.as_slice() == trimmed.as_bytes()
            && left(alloc, text)?.as_slice() == first.as_bytes()
            && right(alloc, text)?.as_slice() == last.as_bytes(),
    )
}

fn first_wrong_blanks(
    alloc: Global,
    rows: &[(&str, &str, &str, &str)],
) -> Result<Option<usize>, AllocError> {
    for (row, (text, trimmed, first, last)) in rows.iter().enumerate() {
        if !blanks_are_moved(alloc, *text, *trimmed, *first, *last)? {
            return Ok(Some(row));
        }
    }
    Ok(None)
}

#[test]
fn texts_are_joined_and_their_blanks_moved(rt: HostRuntime) -> Result<(), Fail> {
    assert!(rt; join(rt.alloc(), b"ab", b"c")?.as_slice() == b"abc".as_slice());
    assert_eq!(rt; first_wrong_blanks(rt.alloc(), &BLANKS)?, None);
    Ok(())
}

/// Whether a text is made, or the number of the stuck state.
fn is_made(made: Result<Bytes, Halt>, want: Result<&str, u8>) -> Result<bool, AllocError> {
    match (made, want) {
        (Ok(text), Ok(want)) => Ok(text.as_slice() == want.as_bytes()),
        (Err(Halt::Stuck(why)), Err(want)) => Ok(why.number() == want),
        (Err(Halt::Memory), _) => Err(AllocError),
        _ => Ok(false),
    }
}

/// From where, to where, and the part of `abcd`.
const PARTS: [(i64, i64, Result<&str, u8>); 8] = [
    (2, 3, Ok("bc")),
    (1, 4, Ok("abcd")),
    (4, 4, Ok("d")),
    (3, 2, Ok("")),
    (9, -9, Ok("")),
    (0, 2, Err(6)),
    (2, 5, Err(6)),
    (-1, -1, Err(6)),
];

/// From where, what is put over a part of `abcd`, and what that makes.
const PUT_OVER: [(i64, &str, Result<&str, u8>); 8] = [
    (2, "xy", Ok("axyd")),
    (3, "xy", Ok("abxy")),
    (1, "wxyz", Ok("wxyz")),
    (4, "xy", Err(6)),
    (0, "x", Err(6)),
    (-5, "", Ok("abcd")),
    (1, "vwxyz", Err(6)),
    (i64::MAX, "x", Err(6)),
];

/// How long `abc` is made.
const FITTED: [(i64, Result<&str, u8>); 4] = [
    (2, Ok("ab")),
    (4, Ok("abc ")),
    (0, Ok("")),
    (-1, Err(6)),
];

const CHARACTERS: [(i64, Result<&str, u8>); 4] = [
    (65, Ok("A")),
    (0, Ok("\0")),
    (256, Err(7)),
    (-1, Err(7)),
];

fn first_wrong_part(
    alloc: Global,
    rows: &[(i64, i64, Result<&str, u8>)],
) -> Result<Option<usize>, AllocError> {
    for (row, (from, to, want)) in rows.iter().enumerate() {
        if !is_made(sub(alloc, b"abcd", *from, *to), *want)? {
            return Ok(Some(row));
        }
    }
    Ok(None)
}

fn first_wrong_put_over(
    alloc: Global,
    rows: &[(i64, &str, Result<&str, u8>)],
) -> Result<Option<usize>, AllocError> {
    for (row, (from, new, want)) in rows.iter().enumerate() {
        if !is_made(over(alloc, b"abcd", *from, new.as_bytes()), *want)? {
            return Ok(Some(row));
        }
    }
    Ok(None)
}

fn first_wrong_fitted(
    alloc: Global,
    rows: &[(i64, Result<&str, u8>)],
) -> Result<Option<usize>, AllocError> {
    for (row, (length, want)) in rows.iter().enumerate() {
        if !is_made(fit(alloc, b"abc", *length), *want)? {
            return Ok(Some(row));
        }
    }
    Ok(None)
}

fn first_wrong_character(
    alloc: Global,
    rows: &[(i64, Result<&str, u8>)],
) -> Result<Option<usize>, AllocError> {
    for (row, (byte, want)) in rows.iter().enumerate() {
        if !is_made(char(alloc, *byte), *want)? {
            return Ok(Some(row));
        }
    }
    Ok(None)
}

#[test]
fn parts_of_texts_are_made(rt: HostRuntime) -> Result<(), Fail> {
    assert_eq!(rt; first_wrong_part(rt.alloc(), &PARTS)?, None);
    assert_eq!(rt; first_wrong_put_over(rt.alloc(), &PUT_OVER)?, None);
    assert_eq!(rt; first_wrong_fitted(rt.alloc(), &FITTED)?, None);
    Ok(())
}

#[test]
fn characters_are_made(rt: HostRuntime) -> Result<(), Fail> {
    assert_eq!(rt; first_wrong_character(rt.alloc(), &CHARACTERS)?, None);
    let Ok(last) = char(rt.alloc(), 255) else {
        return Err(Fail::new("no byte 255"));
    };
    assert!(rt; last.as_slice() == [255].as_slice());
    Ok(())
}
