//! CHARACTER values, and texts of bytes.
use a95_base::{Bytes, compare_padded, fit};
use std::alloc::{AllocError, Global};
use std::cmp::Ordering;
use std::test::Fail;

/// Two texts, and their order.
type Compared = (&'static [u8], &'static [u8], Ordering);

const COMPARED: [Compared; 18] = [
    (b"", b"", Ordering::Equal),
    (b"", b"   ", Ordering::Equal),
    (b" ", b"", Ordering::Equal),
    (b"ab", b"ab  ", Ordering::Equal),
    (b"ab  ", b"ab", Ordering::Equal),
    (b"ab", b"ac", Ordering::Less),
    (b"b", b"ab", Ordering::Greater),
    (b"B", b"a", Ordering::Less),
    (b"ab", b"ab!", Ordering::Less),
    (b"abc", b"ab", Ordering::Greater),
    (b"a b", b"ab", Ordering::Less),
    (b"ab\t", b"ab", Ordering::Less),
    (b"ab", b"ab\t", Ordering::Greater),
    (b"a\x00", b"a", Ordering::Less),
    (b"a", b"a\x1f", Ordering::Greater),
    (b"", b"\xff", Ordering::Less),
    (b"\xff", b"\x7f", Ordering::Greater),
    (b"ab \x00", b"ab", Ordering::Less),
];

fn first_wrong_order(rows: &[Compared]) -> Option<usize> {
    for (row, (a, b, want)) in rows.iter().enumerate() {
        if compare_padded(*a, *b) != *want {
            return Some(row);
        }
    }
    None
}

#[test]
fn texts_are_compared_as_if_padded(rt: HostRuntime) {
    assert_eq!(rt; first_wrong_order(&COMPARED), None);
}

const FITTED: [(&str, usize, &str); 7] = [
    ("abc", 0, ""),
    ("abc", 2, "ab"),
    ("abc", 3, "abc"),
    ("abc", 5, "abc  "),
    ("", 0, ""),
    ("", 2, "  "),
    (" a ", 4, " a  "),
];

fn first_wrong_fit(alloc: Global, rows: &[(&str, usize, &str)]) -> Result<Option<usize>, Fail> {
    for (row, (text, len, want)) in rows.iter().enumerate() {
        if fit(alloc, text.as_bytes(), *len)?.as_slice() != want.as_bytes() {
            return Ok(Some(row));
        }
    }
    Ok(None)
}

#[test]
fn texts_are_cut_and_padded(rt: HostRuntime) -> Result<(), Fail> {
    assert_eq!(rt; first_wrong_fit(rt.alloc(), &FITTED)?, None);
    Ok(())
}

/// No bytes, and one more.
fn one_byte(alloc: Global, byte: u8) -> Result<Bytes, AllocError> {
    let mut bytes = Bytes::new(alloc);
    if bytes.is_empty() {
        bytes.push(byte)?;
    }
    Ok(bytes)
}

fn are_the_same(alloc: Global, bytes: &Bytes, wanted: &[u8]) -> Result<bool, AllocError> {
    Ok(*bytes == Bytes::from_slice(alloc, wanted)? && bytes.len() == wanted.len())
}

#[test]
fn bytes_are_a_list(rt: HostRuntime) -> Result<(), Fail> {
    let copy = one_byte(rt.alloc(), 97)?.copy(rt.alloc())?;
    assert!(rt; are_the_same(rt.alloc(), &copy, b"a")?);
    let vec = copy.into_vec();
    assert!(rt; Bytes::from_vec(vec).as_slice() == b"a".as_slice());
    Ok(())
}
