//! The variables of a running LoopC program.
use a95_base::Bytes;
use loop_values::{Numbers, Words};
use std::alloc::{AllocError, Global};
use std::test::Fail;

/// A call on the INTEGER variables, and its answer.
#[derive(Drop)]
enum NumberCall {
    Push(i64),
    Set(u32, i64),
    Get(u32, i64),
    /// No variable has a larger number, so none can be added.
    IsFull,
}

const NUMBER_CALLS: [NumberCall; 22] = [
    NumberCall::Get(0, 0),
    NumberCall::Get(u32::MAX, 0),
    NumberCall::Push(5),
    NumberCall::Set(3, -7),
    NumberCall::Push(8),
    NumberCall::Get(0, 5),
    NumberCall::Get(1, 0),
    NumberCall::Get(3, -7),
    NumberCall::Get(4, 8),
    // Sparse numbers take little memory.
    NumberCall::Set(u32::MAX, 1),
    NumberCall::Set(1_000_000, 2),
    NumberCall::Set(65_536, 3),
    NumberCall::Set(1_000_000, 4),
    NumberCall::Set(65_535, 6),
    NumberCall::Get(u32::MAX, 1),
    NumberCall::Get(1_000_000, 4),
    NumberCall::Get(65_536, 3),
    NumberCall::Get(65_535, 6),
    NumberCall::Get(65_537, 0),
    NumberCall::Get(5, 0),
    NumberCall::IsFull,
    NumberCall::Get(u32::MAX, 1),
];

fn number_call(numbers: &mut Numbers, call: &NumberCall) -> Result<bool, AllocError> {
    match call {
        NumberCall::Push(value) => numbers.push(*value)?,
        NumberCall::Set(n, value) => numbers.set(*n, *value)?,
        NumberCall::Get(n, value) => return Ok(numbers.get(*n) == *value),
        NumberCall::IsFull => return Ok(numbers.push(1).is_err()),
    }
    Ok(true)
}

/// The place of the first call that has another answer.
fn first_wrong_number(alloc: Global, calls: &[NumberCall]) -> Result<Option<usize>, AllocError> {
    let mut numbers = Numbers::new(alloc);
    for (place, call) in calls.iter().enumerate() {
        if !number_call(&mut numbers, call)? {
            return Ok(Some(place));
        }
    }
    Ok(None)
}

#[test]
fn numbers_are_read_back(rt: HostRuntime) -> Result<(), Fail> {
    assert_eq!(rt; first_wrong_number(rt.alloc(), &NUMBER_CALLS)?, None);
    Ok(())
}

/// A call on the text variables, and its answer.
#[derive(Drop)]
enum WordCall {
    Push(&'static str),
    Set(u32, &'static str),
    Get(u32, &'static str),
}

const WORD_CALLS: [WordCall; 8] = [
    WordCall::Push("ab"),
    WordCall::Set(2, "cde"),
    WordCall::Set(99_999, "f"),
    WordCall::Get(0, "ab"),
    WordCall::Get(1, ""),
    WordCall::Get(2, "cde"),
    WordCall::Get(99_999, "f"),
    WordCall::Get(u32::MAX, ""),
];

fn word_call(alloc: Global, words: &mut Words, call: &WordCall) -> Result<bool, AllocError> {
    match call {
        WordCall::Push(text) => words.push(Bytes::from_slice(alloc, text.as_bytes())?)?,
        WordCall::Set(n, text) => words.set(*n, Bytes::from_slice(alloc, text.as_bytes())?)?,
        WordCall::Get(n, text) => return Ok(words.get(*n) == text.as_bytes()),
    }
    Ok(true)
}

fn first_wrong_word(alloc: Global, calls: &[WordCall]) -> Result<Option<usize>, AllocError> {
    let mut words = Words::new(alloc);
    for (place, call) in calls.iter().enumerate() {
        if !word_call(alloc, &mut words, call)? {
            return Ok(Some(place));
        }
    }
    Ok(None)
}

#[test]
fn words_are_read_back(rt: HostRuntime) -> Result<(), Fail> {
    assert_eq!(rt; first_wrong_word(rt.alloc(), &WORD_CALLS)?, None);
    Ok(())
}

#[test]
fn numbers_of_low_places_are_read_and_set_at_once(rt: HostRuntime) -> Result<(), Fail> {
    let mut numbers = Numbers::new(rt.alloc());
    assert!(rt; !numbers.set_dense(2, 7));
    numbers.set(2, 6)?;
    assert!(rt; numbers.set_dense(2, 7));
    assert_eq!(rt; numbers.get_dense(2), Some(7));
    assert_eq!(rt; numbers.get_dense(1), Some(0));
    assert_eq!(rt; numbers.get_dense(3), None);
    Ok(())
}
