//! The objects in memory: which calls fail, what is counted, and what is left.
use crate::callers::{Outcome, Stopped, copy, take_all};
use io_edge::{
    CleanShelf, CleanSink, CleanSource, MemoryShelf, MemorySink, MemorySource, Shelf, Sink, Source,
};
use std::alloc::{AllocError, Global};
use std::test::Fail;

const FILES: [(&str, &str); 3] = [("a", "first"), ("b", "other"), ("a", "second")];

/// A shelf of which the second load fails.
fn shelf_of(alloc: Global, files: &[(&str, &str)]) -> Result<MemoryShelf, AllocError> {
    let mut all = Vec::new(alloc);
    for (name, text) in files {
        let bytes = Vec::from_slice(alloc, text.as_bytes())?;
        all.push((String::from_str(alloc, name)?, bytes))?;
    }
    Ok(MemoryShelf::new(alloc, all, vec![in alloc; 2]?))
}

/// A file that is copied: its name, the outcome, how many loads have failed, and all that was written.
type Copied = (&'static str, Outcome, u64, &'static str);

const COPIED: [Copied; 6] = [
    ("a", Outcome::Done, 0, "first"),
    ("a", Outcome::ReadFault, 1, "first"),
    ("b", Outcome::Done, 1, "firstother"),
    ("c", Outcome::ReadFault, 2, "firstother"),
    ("a", Outcome::Done, 2, "firstotherfirst"),
    ("b", Outcome::WriteFault, 2, "firstotherfirstoth"),
];

fn first_wrong_copy(
    alloc: Global,
    shelf: &mut MemoryShelf,
    out: &mut MemorySink,
    rows: &[Copied],
) -> Option<usize> {
    for (row, (name, outcome, faults, written)) in rows.iter().enumerate() {
        let same = copy(alloc, shelf, name, out) == *outcome;
        if !same || shelf.faults() != *faults || out.written() != written.as_bytes() {
            return Some(row);
        }
    }
    None
}

#[test]
fn a_shelf_gives_its_files_and_keeps_the_name_that_failed(rt: HostRuntime) -> Result<(), Fail> {
    let mut shelf = shelf_of(rt.alloc(), &FILES)?;
    // The fourth put passes three bytes and fails.
    let mut out = MemorySink::new(rt.alloc(), vec![in rt.alloc(); 4]?, 3);
    assert!(rt; shelf.failed().is_empty());
    assert_eq!(rt;
        first_wrong_copy(rt.alloc(), &mut shelf, &mut out, &COPIED),
        None
    );
    assert!(rt; shelf.failed() == "c" && out.faults() == 1);
    Ok(())
}

/// A source of ten bytes, three a call: the limit, which call fails, and what comes of it.
type Taken = (usize, u64, Result<&'static str, Stopped>);

const TAKEN: [Taken; 4] = [
    (10, 0, Ok("0123456789")),
    (9, 0, Err(Stopped::TooLong)),
    (10, 2, Err(Stopped::ReadFault)),
    (10, 9, Ok("0123456789")),
];

fn is_taken(alloc: Global, row: &Taken) -> Result<bool, AllocError> {
    let (limit, failing, wanted) = row;
    let bytes = Vec::from_slice(alloc, b"0123456789")?;
    let mut source = MemorySource::new(bytes, 3, vec![in alloc; *failing]?);
    Ok(match (take_all(alloc, &mut source, *limit), wanted) {
        (Ok(all), Ok(text)) => all.as_slice() == text.as_bytes(),
        (Err(stopped), Err(other)) => stopped == *other,
        _ => false,
    })
}

fn first_wrong_take(alloc: Global, rows: &[Taken]) -> Result<Option<usize>, AllocError> {
    for (row, wanted) in rows.iter().enumerate() {
        if !is_taken(alloc, wanted)? {
            return Ok(Some(row));
        }
    }
    Ok(None)
}

#[test]
fn a_source_gives_pieces_and_fails_where_it_is_told(rt: HostRuntime) -> Result<(), Fail> {
    assert_eq!(rt; first_wrong_take(rt.alloc(), &TAKEN)?, None);
    Ok(())
}

/// Whether a text is copied twice, under any names, and an input is taken to its end, with no fault.
fn is_clean(alloc: Global) -> Result<bool, AllocError> {
    let mut shelf = CleanShelf::new(Vec::from_slice(alloc, b"text")?);
    let mut out = CleanSink::new(alloc);
    let mut source = CleanSource::new(Vec::from_slice(alloc, b"01234")?);
    let once = copy(alloc, &mut shelf, "any", &mut out) == Outcome::Done;
    let twice = copy(alloc, &mut shelf, "other", &mut out) == Outcome::Done;
    let Ok(all) = take_all(alloc, &mut source, 5) else {
        return Ok(false);
    };
    let written = once && twice && out.written() == b"texttext".as_slice();
    let faults = shelf.faults() + source.faults() + out.faults();
    Ok(written && all.as_slice() == b"01234".as_slice() && faults == 0)
}

#[test]
fn clean_objects_never_fail(rt: HostRuntime) -> Result<(), Fail> {
    assert!(rt; is_clean(rt.alloc())?);
    Ok(())
}
