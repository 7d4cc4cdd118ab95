//! What is made of pieces: the program, its text, and what is written of it.
use crate::given::{TEXT, given};
use io_edge::{MemorySink, PutFault, Sink};
use loop_tree::{Code, Letter};
use loop_writer::{collect, print, put_head, write};
use std::alloc::{AllocError, Global};
use std::test::Fail;

#[test]
fn pieces_are_collected_and_printed(rt: HostRuntime) -> Result<(), Fail> {
    let program = collect(rt.alloc(), &mut given(rt.alloc())?)?;
    assert!(rt; program.functions().len() == 2);
    assert!(rt; print(rt.alloc(), &program)?.as_slice() == TEXT.as_bytes());
    Ok(())
}

/// Which put fails, having passed so many bytes, what comes of the writing, and how many bytes of the text are written.
type Written = (u64, usize, Result<(), PutFault>, usize);

const WRITTEN: [Written; 4] = [
    (1, 0, Err(PutFault::Failed), 0),
    (1, 20, Err(PutFault::Failed), 20),
    (1, 5000, Err(PutFault::Failed), TEXT.len()),
    // a short text is one put
    (2, 0, Ok(()), TEXT.len()),
];

fn is_written(alloc: Global, row: &Written) -> Result<bool, AllocError> {
    let (failing, passed, want, count) = row;
    let mut sink = MemorySink::new(alloc, vec![in alloc; *failing]?, *passed);
    let came = write(alloc, &mut given(alloc)?, &mut sink);
    Ok(
        came == *want
            && sink.written().len() == *count
            && TEXT.as_bytes().starts_with(sink.written()),
    )
}

fn first_wrong(alloc: Global, rows: &[Written]) -> Result<Option<usize>, AllocError> {
    for (row, wanted) in rows.iter().enumerate() {
        if !is_written(alloc, wanted)? {
            return Ok(Some(row));
        }
    }
    Ok(None)
}

#[test]
fn pieces_are_written_while_they_come(rt: HostRuntime) -> Result<(), Fail> {
    assert_eq!(rt; first_wrong(rt.alloc(), &WRITTEN)?, None);
    Ok(())
}

#[test]
fn bodies_have_room(rt: HostRuntime) {
    let code = Code::new(rt.alloc());
    assert!(rt; code.room() == 999 && !code.in_loop() && code.statements().is_empty());
    let branch = code.branch(rt.alloc());
    assert!(rt; branch.room() == 998 && !branch.in_loop());
    let body = branch.loop_body(rt.alloc());
    assert!(rt; body.room() == 997 && body.in_loop());
}

/// The letters of a function's parameters, and the line that begins it.
const HEADS: [(usize, &[Letter], &str); 3] = [
    (0, &[], "void f0() {"),
    (7, &[Letter::Ints], "void f7(b0) {"),
    (
        4294967295,
        &[Letter::Texts, Letter::Int, Letter::Text],
        "void f4294967295(c0, i1, s2) {",
    ),
];

fn first_wrong_head(
    alloc: Global,
    rows: &[(usize, &[Letter], &str)],
) -> Result<Option<usize>, AllocError> {
    for (row, (number, letters, want)) in rows.iter().enumerate() {
        let mut head = String::new(alloc);
        put_head(&mut head, *number, *letters)?;
        if head.as_str() != *want {
            return Ok(Some(row));
        }
    }
    Ok(None)
}

#[test]
fn heads_have_their_parameters(rt: HostRuntime) -> Result<(), Fail> {
    assert_eq!(rt; first_wrong_head(rt.alloc(), &HEADS)?, None);
    Ok(())
}
