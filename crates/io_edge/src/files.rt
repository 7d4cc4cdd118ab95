//! The files of the system, loaded whole.
ghost use Rattle.std.specs.Prelude.{◌≡◌, ◌≤◌, ◌+◌, ◌++◌, [], IfOk, OnOk, OnErr, IfSome, vec_len};
ghost use Rattle.std.specs.Io.{StartsWith, appended_bytes};
ghost use Rattle.std.specs.Io.KnownBytes.{Consumes, IsAtEnd};

use crate::traits::{LoadFault, Shelf};
use std::alloc::Global;
use std::fs;
use std::io::{ErrorKind, Read};
use std::rt::Files;

/// The most bytes of a file that is loaded.
pub const FILE_LIMIT: usize = 1 << 32;

// The room that is made for one read.
const PIECE: usize = 1 << 16;

/// The files of the system, by their paths. It tells no bytes.
#[derive(Drop)]
pub struct FileShelf<R: Files> {
    files: R,
    faults: u64,
    failed: String,
}

impl<R: Files> FileShelf<R> {
    pub fn new(alloc: Global, files: R) -> FileShelf<R>
        ensures faults { ⟦<FileShelf<R> as Shelf>⟧.faults result ≡ 0 }
        ensures failed { ⟦<FileShelf<R> as Shelf>⟧.failed result ≡ [] }
    {
        FileShelf {
            files,
            faults: 0,
            failed: String::new(alloc),
        }
    }
}

impl<R: Files> Shelf for FileShelf<R> {
    ghost use Rattle.std.specs.Prelude.{None, string_bytes};

    ghost file = { λ _ _. None };

    ghost faults = { λ s. s.faults };

    ghost failed = { λ s. string_bytes s.failed };

    fn failed(&self) -> &str {
        self.failed.as_str()
    }

    fn faults(&self) -> u64 {
        self.faults
    }

    fn load(&mut self, alloc: Global, name: &str, into: &mut Vec<u8>) -> Result<(), LoadFault> {
        let Ok(kept) = String::from_str(alloc, name) else {
            return Err(LoadFault::Memory);
        };
        match append_file(&self.files, name, into) {
            Err(LoadFault::Failed) => {
                self.faults = self.faults.saturating_add(1);
                self.failed = kept;
                Err(LoadFault::Failed)
            }
            loaded => loaded,
        }
    }
}

// The whole file behind what `into` holds, or nothing.
fn append_file<R: Files>(files: &R, name: &str, into: &mut Vec<u8>) -> Result<(), LoadFault>
    ensures front { OnOk result (StartsWith into.new.items into.old.items) }
    ensures err { OnErr result (into.new.items ≡ into.old.items) }
{
    match fs::open(files, name) {
        Ok(mut file) => append_all(&mut file, into),
        Err(e) if e.kind() == ErrorKind::OutOfMemory => Err(LoadFault::Memory),
        Err(_) => Err(LoadFault::Failed),
    }
}

// All that the reader has left, or nothing.
fn append_all<R: Read>(reader: &mut R, into: &mut Vec<u8>) -> Result<(), LoadFault>
    ensures all { OnOk result (IfSome (R.remaining reader.old) (λ bytes. into.new.items ≡ into.old.items ++ bytes)) }
    ensures front { OnOk result (StartsWith into.new.items into.old.items) }
    ensures err { OnErr result (into.new.items ≡ into.old.items) }
{
    let start = into.len();
    while into.len() - start <= FILE_LIMIT {
        match append_piece(reader, into) {
            Ok(0) => return Ok(()),
            Ok(_) => {}
            Err(fault) => {
                into.truncate(start);
                return Err(fault);
            }
        }
    }
    into.truncate(start);
    Err(LoadFault::Failed)
}

// What one read gives: nothing only at the end.
fn append_piece<R: Read>(reader: &mut R, into: &mut Vec<u8>) -> Result<usize, LoadFault>
    ensures count { IfOk result (λ n. vec_len into.new ≡ vec_len into.old + n) }
    ensures front { StartsWith into.new.items into.old.items }
    ensures taken { OnOk result
        (Consumes (R.remaining reader.old) (R.remaining reader.new) (appended_bytes into.old.items into.new.items)) }
    ensures end { IfOk result (λ n. n ≡ 0 → IsAtEnd (R.remaining reader.new)) }
{
    let end = into.len();
    if end > usize::MAX - PIECE || into.resize(end + PIECE, 0).is_err() {
        return Err(LoadFault::Memory);
    }
    match reader.read(&mut into[end..]) {
        Ok(count) => {
            into.truncate(end + count);
            Ok(count)
        }
        Err(_) => {
            into.truncate(end);
            Err(LoadFault::Failed)
        }
    }
}
