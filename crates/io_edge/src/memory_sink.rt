//! Output in memory, with calls that fail where they are told to.
ghost use Rattle.std.specs.Prelude.{◌≡◌, ◌≤◌, [], ◌++◌, take, IsTrue, IsFalse, OnOk, IsErrOf, vec_items};
ghost use Rattle.io_edge.specs.Causes.{one_more};
ghost use Rattle.io_edge.specs.Memory.{fails_next};

use crate::traits::{PutFault, Sink};
use std::alloc::Global;
use std::marker::Model;

/// A sink in memory, some of whose calls fail.
#[derive(Drop)]
pub struct MemorySink {
    written: Vec<u8>,
    passed: usize,
    failing: Vec<u64>,
    calls: u64,
    faults: u64,
}

impl Model for MemorySink {
    ghost use Rattle.io_edge.specs.Memory.{Output};

    ghost Value = { Output };

    ghost view = { λ s. record {
      written = s.written.items;
      passed = s.passed;
      failing = s.failing.items;
      calls = s.calls;
      faults = s.faults;
    } };
}

impl MemorySink {
    /// `failing` has the numbers of the calls that fail, counted from 1. Such a call passes the first `passed` bytes
    /// of its piece, or all where the piece is shorter.
    pub fn new(alloc: Global, failing: Vec<u64>, passed: usize) -> MemorySink
        ensures { result ≡ record { written = []; passed = passed; failing = failing.items; calls = 0; faults = 0 } }
    {
        MemorySink {
            written: Vec::new(alloc),
            passed,
            failing,
            calls: 0,
            faults: 0,
        }
    }

    /// All that it holds.
    pub fn written(&self) -> &[u8]
        ensures { result.now ≡ self.now.written }
    {
        self.written.as_slice()
    }
}

impl Sink for MemorySink {
    ghost use Rattle.std.specs.Prelude.{Some};

    ghost written = { λ s. Some s.written };

    ghost faults = { λ s. s.faults };

    fn faults(&self) -> u64 {
        self.faults
    }

    fn put(&mut self, bytes: &[u8]) -> Result<(), PutFault>
        ensures ok { OnOk result (self.new ≡ record self.old {
          written = self.old.written ++ bytes.now;
          calls = one_more self.old.calls;
        }) }
        ensures failed { IsErrOf result PutFault.Failed → self.new ≡ record self.old {
          written = self.old.written ++ take self.old.passed bytes.now;
          calls = one_more self.old.calls;
          faults = one_more self.old.faults;
        } }
        ensures memory { IsErrOf result PutFault.Memory → self.new ≡ record self.old { calls = one_more self.old.calls } }
        ensures later { self.old.faults ≤ self.new.faults }
        ensures passes { OnOk result (IsFalse (fails_next self.old.failing self.old.calls)) }
        ensures fails { IsErrOf result PutFault.Failed → IsTrue (fails_next self.old.failing self.old.calls) }
    {
        self.calls = self.calls.saturating_add(1);
        if !self.failing.contains(&self.calls) {
            return match self.written.extend_from_slice(bytes) {
                Ok(()) => Ok(()),
                Err(_) => Err(PutFault::Memory),
            };
        }
        let front = &bytes[..self.passed.min(bytes.len())];
        match self.written.extend_from_slice(front) {
            Ok(()) => {
                self.faults = self.faults.saturating_add(1);
                Err(PutFault::Failed)
            }
            Err(_) => Err(PutFault::Memory),
        }
    }
}
