//! What is read of an input, and the text of a record.
use a95_base::{Bytes, Scalar};
use record_io::{Looked, Record, after_record, input_rule, look};
use std::alloc::{AllocError, Global};
use std::test::Fail;

const LOOKED: [(&str, bool, Looked); 18] = [
    ("12 3", false, Looked::Value { value: 12, used: 2 }),
    (" \t\r\n-7,", false, Looked::Value { value: -7, used: 6 }),
    (", 5", true, Looked::Value { value: 5, used: 3 }),
    (
        "2147483647",
        false,
        Looked::Value {
            value: 2147483647,
            used: 10,
        },
    ),
    (
        "-2147483648",
        true,
        Looked::Value {
            value: -2147483648,
            used: 11,
        },
    ),
    (
        "+000000000000000000000005\n",
        false,
        Looked::Value { value: 5, used: 25 },
    ),
    ("", true, Looked::End),
    (" \r\n\t", true, Looked::End),
    (" , ", true, Looked::End),
    (",5", false, Looked::Bad),
    ("2147483648", false, Looked::Bad),
    ("-2147483649", false, Looked::Bad),
    (
        "99999999999999999999999999999999999999999",
        false,
        Looked::Bad,
    ),
    ("1x", false, Looked::Bad),
    ("1\u{c}", false, Looked::Bad),
    ("+ 1", false, Looked::Bad),
    ("-", false, Looked::Bad),
    (",,5", true, Looked::Bad),
];

fn first_wrong_look(rows: &[(&str, bool, Looked)]) -> Option<usize> {
    for (row, (rest, comma, looked)) in rows.iter().enumerate() {
        if look(rest.as_bytes(), *comma) != *looked {
            return Some(row);
        }
    }
    None
}

#[test]
fn the_next_integer_is_found(rt: HostRuntime) {
    input_rule();
    assert_eq!(rt; first_wrong_look(&LOOKED), None);
}

const RECORDS: [(&str, usize); 4] = [("ab\ncd\n", 3), ("abc", 3), ("", 0), ("\n\n", 1)];

fn first_wrong_record(rows: &[(&str, usize)]) -> Option<usize> {
    for (row, (rest, wanted)) in rows.iter().enumerate() {
        if after_record(rest.as_bytes()) != *wanted {
            return Some(row);
        }
    }
    None
}

#[test]
fn a_record_ends_with_its_line_feed(rt: HostRuntime) {
    assert_eq!(rt; first_wrong_record(&RECORDS), None);
}

fn put_text(alloc: Global, record: &mut Record, text: &str) -> Result<(), AllocError> {
    let bytes = Bytes::from_slice(alloc, text.as_bytes())?;
    match record.put_value(&Scalar::Text(bytes)) {
        Ok(()) => Ok(()),
        Err(_) => Err(AllocError),
    }
}

/// Two texts, an integer, both truths and a text.
fn put_some(alloc: Global, record: &mut Record) -> Result<(), Fail> {
    put_text(alloc, record, "ab")?;
    put_text(alloc, record, "c ")?;
    record.put_value(&Scalar::Int(-2147483648))?;
    record.put_value(&Scalar::Log(true))?;
    record.put_value(&Scalar::Log(false))?;
    put_text(alloc, record, "d")?;
    Ok(())
}

#[test]
fn a_blank_parts_values_but_no_two_texts(rt: HostRuntime) -> Result<(), Fail> {
    let mut record = Record::new(rt.alloc());
    assert!(rt; record.bytes().is_empty());
    put_some(rt.alloc(), &mut record)?;
    assert!(rt; record.bytes() == b" abc  -2147483648 T F d".as_slice());
    record.clear();
    record.put_value(&Scalar::Int(7))?;
    assert!(rt; record.bytes() == b" 7".as_slice());
    Ok(())
}
