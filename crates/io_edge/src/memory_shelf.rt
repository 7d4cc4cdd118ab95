//! Files in memory, with loads that fail where they are told to.
ghost use Rattle.std.specs.Prelude.{◌≡◌, ◌≤◌, ◌++◌, [], MatchOption, IsTrue, IsFalse, None, Some, OnOk, OnErr, IfSome, IsErrOf};
ghost use Rattle.io_edge.specs.Causes.{one_more};
ghost use Rattle.io_edge.specs.Memory.{file_named, loads_next};
ghost use Rattle.io_edge.specs.Named.{named_files};

use crate::traits::{LoadFault, Shelf};
use std::alloc::Global;
use std::marker::Model;

/// Named files in memory, some of whose loads fail.
#[derive(Drop)]
pub struct MemoryShelf {
    files: Vec<(String, Vec<u8>)>,
    failing: Vec<u64>,
    calls: u64,
    faults: u64,
    failed: String,
}

impl Model for MemoryShelf {
    ghost use Rattle.std.specs.Prelude.{string_bytes};
    ghost use Rattle.io_edge.specs.Memory.{Files};
    ghost use Rattle.io_edge.specs.Named.{named_files};

    ghost Value = { Files };

    ghost view = { λ s. record {
      files = named_files s.files.items;
      failing = s.failing.items;
      calls = s.calls;
      faults = s.faults;
      failed = string_bytes s.failed;
    } };
}

impl MemoryShelf {
    /// Where two files have one name, the first counts. `failing` has the numbers of the calls that fail, counted
    /// from 1; a call for a name that is missing fails too.
    pub fn new(alloc: Global, files: Vec<(String, Vec<u8>)>, failing: Vec<u64>) -> MemoryShelf
        ensures { result ≡ record { files = named_files files.items; failing = failing.items; calls = 0; faults = 0; failed = [] } }
    {
        MemoryShelf {
            files,
            failing,
            calls: 0,
            faults: 0,
            failed: String::new(alloc),
        }
    }
}

impl Shelf for MemoryShelf {
    ghost file = { λ s name. file_named s.files name };

    ghost faults = { λ s. s.faults };

    ghost failed = { λ s. s.failed };

    fn failed(&self) -> &str {
        self.failed.as_str()
    }

    fn faults(&self) -> u64 {
        self.faults
    }

    fn load(&mut self, alloc: Global, name: &str, into: &mut Vec<u8>) -> Result<(), LoadFault>
        ensures loaded { OnOk result
            (IfSome (file_named self.old.files name.now) (λ bytes. into.new.items ≡ into.old.items ++ bytes)) }
        ensures unloaded { OnErr result (into.new.items ≡ into.old.items) }
        ensures ok { OnOk result (self.new ≡ record self.old { calls = one_more self.old.calls }) }
        ensures failed { IsErrOf result LoadFault.Failed → self.new ≡ record self.old {
          calls = one_more self.old.calls;
          faults = one_more self.old.faults;
          failed = name.now;
        } }
        ensures memory { IsErrOf result LoadFault.Memory → self.new ≡ record self.old { calls = one_more self.old.calls } }
        ensures loads { OnOk result (IsTrue (loads_next self.old name.now)) }
        ensures fails { IsErrOf result LoadFault.Failed → IsFalse (loads_next self.old name.now) }
        ensures later { self.old.faults ≤ self.new.faults }
    {
        self.calls = self.calls.saturating_add(1);
        let Ok(kept) = String::from_str(alloc, name) else {
            return Err(LoadFault::Memory);
        };
        if !self.failing.contains(&self.calls) {
            if let Some(bytes) = find_file(self.files.as_slice(), name) {
                return match into.extend_from_slice(bytes) {
                    Ok(()) => Ok(()),
                    Err(_) => Err(LoadFault::Memory),
                };
            }
        }
        self.faults = self.faults.saturating_add(1);
        self.failed = kept;
        Err(LoadFault::Failed)
    }
}

// The bytes of the first file of that name.
fn find_file<'a>(files: &'a [(String, Vec<u8>)], name: &str) -> Option<&'a [u8]>
    ensures { MatchOption result (file_named (named_files files.now) name.now ≡ None)
        (λ bytes. file_named (named_files files.now) name.now ≡ Some bytes.now) }
{
    for file in files {
        if file.0.as_str() == name {
            return Some(file.1.as_slice());
        }
    }
    None
}
