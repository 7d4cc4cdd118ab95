//! Objects in memory that never fail.
ghost use Rattle.std.specs.Prelude.{◌≡◌, [], ◌++◌, take, drop, min, length, IfOk, IsOk, OnOk, OnErr, IsErrOf};

use crate::traits::{Failed, LoadFault, PutFault, Shelf, Sink, Source};
use std::alloc::Global;
use std::marker::Model;

/// One text, which it gives for every name.
#[derive(Drop)]
pub struct CleanShelf {
    text: Vec<u8>,
}

impl Model for CleanShelf {
    ghost use Rattle.std.specs.Prelude.{List, ℕ};

    ghost Value = { List ℕ };

    ghost view = { λ s. s.text.items };
}

impl CleanShelf {
    pub fn new(text: Vec<u8>) -> CleanShelf
        ensures { result ≡ text.items }
    {
        CleanShelf { text }
    }
}

impl Shelf for CleanShelf {
    ghost use Rattle.std.specs.Prelude.{Some, []};

    ghost file = { λ s name. Some s };

    ghost faults = { λ s. 0 };

    ghost failed = { λ s. [] };

    fn failed(&self) -> &str {
        ""
    }

    fn faults(&self) -> u64 {
        0
    }

    fn load(&mut self, _alloc: Global, _name: &str, into: &mut Vec<u8>) -> Result<(), LoadFault>
        ensures loaded { OnOk result (into.new.items ≡ into.old.items ++ self.old) }
        ensures memory { OnErr result (IsErrOf result LoadFault.Memory × (into.new.items ≡ into.old.items)) }
        ensures same { self.new ≡ self.old }
    {
        match into.extend_from_slice(self.text.as_slice()) {
            Ok(()) => Ok(()),
            Err(_) => Err(LoadFault::Memory),
        }
    }
}

/// A source in memory that gives as many bytes as there is room for.
#[derive(Drop)]
pub struct CleanSource {
    bytes: Vec<u8>,
    at: usize,
}

impl Model for CleanSource {
    ghost use Rattle.std.specs.Prelude.{List, ℕ, ◌≤◌, drop, length};

    ghost Value = { List ℕ };

    ghost view = { λ s. drop s.at s.bytes.items };

    ghost invariant = { λ s. s.at ≤ length s.bytes.items };
}

impl CleanSource {
    pub fn new(bytes: Vec<u8>) -> CleanSource
        ensures { result ≡ bytes.items }
    {
        CleanSource { bytes, at: 0 }
    }
}

impl Source for CleanSource {
    ghost use Rattle.std.specs.Prelude.{Some};

    ghost left = { λ s. Some s };

    ghost faults = { λ s. 0 };

    fn faults(&self) -> u64 {
        0
    }

    fn take(&mut self, into: &mut [u8]) -> Result<usize, Failed>
        ensures ok { IsOk result }
        ensures given { IfOk result (λ n. n ≡ min (length into.old) (length self.old)) }
        ensures moved { IfOk result (λ n. into.new ≡ take n self.old ++ drop n into.old) }
        ensures rest { IfOk result (λ n. self.new ≡ drop n self.old) }
    {
        let left = &self.bytes[self.at..];
        let count = into.len().min(left.len());
        into[..count].copy_from_slice(&left[..count]);
        self.at += count;
        Ok(count)
    }
}

/// A sink in memory.
#[derive(Drop)]
pub struct CleanSink {
    written: Vec<u8>,
}

impl Model for CleanSink {
    ghost use Rattle.std.specs.Prelude.{List, ℕ};

    ghost Value = { List ℕ };

    ghost view = { λ s. s.written.items };
}

impl CleanSink {
    pub fn new(alloc: Global) -> CleanSink
        ensures { result ≡ [] }
    {
        CleanSink {
            written: Vec::new(alloc),
        }
    }

    /// All that it holds.
    pub fn written(&self) -> &[u8]
        ensures { result.now ≡ self.now }
    {
        self.written.as_slice()
    }
}

impl Sink for CleanSink {
    ghost use Rattle.std.specs.Prelude.{Some};

    ghost written = { λ s. Some s };

    ghost faults = { λ s. 0 };

    fn faults(&self) -> u64 {
        0
    }

    fn put(&mut self, bytes: &[u8]) -> Result<(), PutFault>
        ensures ok { OnOk result (self.new ≡ self.old ++ bytes.now) }
        ensures memory { OnErr result (IsErrOf result PutFault.Memory × (self.new ≡ self.old)) }
    {
        match self.written.extend_from_slice(bytes) {
            Ok(()) => Ok(()),
            Err(_) => Err(PutFault::Memory),
        }
    }
}
