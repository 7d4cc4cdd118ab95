//! Standard input and the two standard outputs. What their reader or writer tells of its bytes, which the real ones
//! do not, the adapter tells too.
ghost use Rattle.std.specs.Prelude.{◌≡◌};

use crate::traits::{Failed, PutFault, Sink, Source};
use std::io::{Read, Stderr, Stdin, Stdout, Write};

// The most bytes that one call takes, which stand on the stack meanwhile.
const PIECE: usize = 1 << 14;

/// A source over a reader.
#[derive(Drop)]
pub struct ReaderSource<R: Read> {
    reader: R,
    faults: u64,
}

/// Standard input.
pub type StdinSource = ReaderSource<Stdin>;

impl<R: Read> ReaderSource<R> {
    pub fn new(reader: R) -> ReaderSource<R>
        ensures left { ⟦<ReaderSource<R> as Source>⟧.left result ≡ R.remaining reader }
        ensures faults { ⟦<ReaderSource<R> as Source>⟧.faults result ≡ 0 }
    {
        ReaderSource { reader, faults: 0 }
    }
}

impl<R: Read> Source for ReaderSource<R> {
    ghost left = { λ s. R.remaining s.reader };

    ghost faults = { λ s. s.faults };

    fn faults(&self) -> u64 {
        self.faults
    }

    fn take(&mut self, into: &mut [u8]) -> Result<usize, Failed> {
        let mut piece = [0; PIECE];
        let room = into.len().min(PIECE);
        match self.reader.read(&mut piece[..room]) {
            Ok(count) => {
                into[..count].copy_from_slice(&piece[..count]);
                Ok(count)
            }
            Err(_) => {
                self.faults = self.faults.saturating_add(1);
                Err(Failed)
            }
        }
    }
}

/// A sink over a writer.
#[derive(Drop)]
pub struct WriterSink<W: Write> {
    writer: W,
    faults: u64,
}

/// Standard output.
pub type StdoutSink = WriterSink<Stdout>;

/// Standard error.
pub type StderrSink = WriterSink<Stderr>;

impl<W: Write> WriterSink<W> {
    pub fn new(writer: W) -> WriterSink<W>
        ensures written { ⟦<WriterSink<W> as Sink>⟧.written result ≡ W.contents writer }
        ensures faults { ⟦<WriterSink<W> as Sink>⟧.faults result ≡ 0 }
    {
        WriterSink { writer, faults: 0 }
    }
}

impl<W: Write> Sink for WriterSink<W> {
    ghost written = { λ s. W.contents s.writer };

    ghost faults = { λ s. s.faults };

    fn faults(&self) -> u64 {
        self.faults
    }

    fn put(&mut self, bytes: &[u8]) -> Result<(), PutFault> {
        let mut at = 0;
        while at < bytes.len() {
            match self.writer.write(&bytes[at..]) {
                // A write that takes nothing would be tried for ever.
                Ok(0) | Err(_) => {
                    self.faults = self.faults.saturating_add(1);
                    return Err(PutFault::Failed);
                }
                Ok(count) => at += count,
            }
        }
        Ok(())
    }
}
