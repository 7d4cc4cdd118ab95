//! The program `f95a`. It hands the words of the command line, the files of the system and the standard streams to the
//! top call of `f95a_core`, whose clauses say all that it does, and ends with the code of the status.
#![tactic(auto)]

ghost use Rattle.f95a_core.specs.Answers.{Noted};
ghost use Rattle.f95a_core.specs.Outside.{stream};

use f95a_core::{Status, code, f95a};
use io_edge::{FileShelf, PutFault, ReaderSource, Sink, WriterSink};
use std::alloc::{AllocError, Global};
use std::env;
use std::io::{self, ErrorKind};
use std::process::ExitCode;

/// The words behind the program's name.
fn words_of(rt: &HostRuntime, alloc: Global) -> io::Result<Vec<String>> {
    let words = env::args(rt)?.skip(1).collect(alloc)?;
    Ok(words)
}

/// The words, or none where the system doesn't give them all as text, which is then a wrong command line.
fn words_or_none(rt: &HostRuntime, alloc: Global) -> Result<Vec<String>, AllocError> {
    match words_of(rt, alloc) {
        Ok(words) => Ok(words),
        Err(e) if e.kind() == ErrorKind::OutOfMemory => Err(AllocError),
        Err(_) => Ok(Vec::new(alloc)),
    }
}

/// The answer where the words found no memory, with its note.
fn no_memory<N: Sink>(notes: &mut N) -> Status
    ensures noted { Noted Status.Memory result
        (stream (N.written notes.old) (N.faults notes.old)) (stream (N.written notes.new) (N.faults notes.new)) }
{
    match notes.put(b"f95a: no memory\n") {
        Ok(()) => Status::Memory,
        Err(PutFault::Failed) => Status::WriteFault,
        Err(PutFault::Memory) => Status::Memory,
    }
}

fn run(rt: HostRuntime) -> Status {
    let alloc = rt.alloc();
    let mut input = ReaderSource::new(rt.stdin());
    let mut out = WriterSink::new(rt.stdout());
    let mut notes = WriterSink::new(rt.stderr());
    let Ok(words) = words_or_none(&rt, alloc) else {
        return no_memory(&mut notes);
    };
    let mut shelf = FileShelf::new(alloc, rt);
    f95a(
        alloc,
        words.as_slice(),
        &mut shelf,
        &mut input,
        &mut out,
        &mut notes,
    )
}

fn main(rt: HostRuntime) -> ExitCode {
    ExitCode::from(code(&run(rt)))
}
