//! The real devices, and a writer that takes a piece bit by bit.
use io_edge::{
    FileShelf, LoadFault, PutFault, Shelf, Sink, Source, StderrSink, StdinSource, StdoutSink,
    WriterSink,
};
use std::alloc::{AllocError, Global};
use std::io::{ErrorKind, Write};
use std::test::Fail;
use std::{fs, io};

fn is_sevens(bytes: &[u8]) -> bool {
    bytes.len() == 200_000 && bytes.iter().all(|byte| *byte == 7)
}

#[test]
fn a_file_shelf_reads_files(rt: HostRuntime) -> Result<(), Fail> {
    let alloc = rt.alloc();
    let text = vec![in alloc; 7u8; 200_000]?;
    fs::write(&rt, "whole", text.as_slice())?;
    let mut shelf = FileShelf::new(alloc, rt);
    let mut into = Vec::from_slice(alloc, b"before")?;
    let missing = shelf.load(alloc, "missing", &mut into);
    assert!(rt; missing == Err(LoadFault::Failed) && into.as_slice() == b"before".as_slice());
    assert!(rt; shelf.failed() == "missing" && shelf.faults() == 1);
    assert!(rt; shelf.load(alloc, "whole", &mut into).is_ok() && shelf.faults() == 1);
    assert!(rt; into.starts_with(b"before") && is_sevens(&into[6..]));
    Ok(())
}

#[test]
fn the_standard_streams_answer(rt: HostRuntime) -> Result<(), Fail> {
    // A test's input is empty.
    let mut source = StdinSource::new(rt.stdin());
    assert!(rt; source.take(&mut [0; 8]) == Ok(0) && source.faults() == 0);
    let mut out = StdoutSink::new(rt.stdout());
    assert!(rt; out.put(b"out\n").is_ok() && out.faults() == 0);
    let mut notes = StderrSink::new(rt.stderr());
    assert!(rt; notes.put(b"notes\n").is_ok() && notes.faults() == 0);
    Ok(())
}

/// Takes two bytes a write until it has room for none.
#[derive(Drop)]
struct Narrow {
    taken: Vec<u8>,
    room: usize,
    breaks: bool,
}

impl Write for Narrow {
    fn write(&mut self, bytes: &[u8]) -> io::Result<usize> {
        if self.breaks && self.taken.len() >= self.room {
            return Err(io::Error::from(ErrorKind::BrokenPipe));
        }
        let room = self.room.saturating_sub(self.taken.len());
        let count = bytes.len().min(2).min(room);
        self.taken.extend_from_slice(&bytes[..count])?;
        Ok(count)
    }

    fn flush(&mut self) -> io::Result<()> {
        Ok(())
    }
}

/// How many bytes the writer takes, whether it breaks then or takes none, and what comes of a put of five bytes.
type Put = (usize, bool, Result<(), PutFault>, u64);

const PUTS: [Put; 3] = [
    (5, true, Ok(()), 0),
    (4, true, Err(PutFault::Failed), 1),
    (3, false, Err(PutFault::Failed), 1),
];

fn first_wrong_put(alloc: Global, rows: &[Put]) -> Option<usize> {
    for (row, (room, breaks, wanted, faults)) in rows.iter().enumerate() {
        let mut sink = WriterSink::new(Narrow {
            taken: Vec::new(alloc),
            room: *room,
            breaks: *breaks,
        });
        if sink.put(b"12345") != *wanted || sink.faults() != *faults {
            return Some(row);
        }
    }
    None
}

#[test]
fn a_writer_is_asked_until_all_is_taken(rt: HostRuntime) {
    assert_eq!(rt; first_wrong_put(rt.alloc(), &PUTS), None);
}
