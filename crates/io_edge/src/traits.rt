//! Files, input and output as the program sees them. An object may tell its bytes or not: the clauses on bytes hold
//! where they are told. Each counts its faults, and answers one only where the count rises.
ghost use Rattle.std.specs.Prelude.{◌≡◌, ℕ, ◌<◌, ◌≤◌, List, ◌++◌, length, take, drop, Option, IfOk, OnOk, OnErr, IsErrOf};
ghost use Rattle.std.specs.Io.{StartsWith};
ghost use Rattle.std.specs.Io.KnownBytes.{Appends, Consumes, Keeps, IsAtEnd};
ghost use Rattle.io_edge.specs.Causes.{Rose};
ghost use Rattle.io_edge.specs.Known.{Loads, AppendsPrefix};

use std::alloc::Global;

/// A read failed.
#[derive(Clone, Copy, Debug, PartialEq, Eq)]
pub struct Failed;

/// Why a file was not loaded.
#[derive(Clone, Copy, Debug, PartialEq, Eq)]
pub enum LoadFault {
    Failed,
    Memory,
}

/// Why a piece was not written, or not all of it.
#[derive(Clone, Copy, Debug, PartialEq, Eq)]
pub enum PutFault {
    Failed,
    Memory,
}

/// Files by their names.
pub trait Shelf {
    /// The bytes of the file of a name, where they are told.
    ghost file: { Self → List ℕ → Option (List ℕ) };

    /// The number of loads that failed, up to 2^64 - 1.
    ghost faults: { Self → ℕ };

    /// The name of the last load that failed, or nothing before the first.
    ghost failed: { Self → List ℕ };

    fn failed(&self) -> &str
        ensures { result.now ≡ failed self.now };

    fn faults(&self) -> u64
        ensures { result ≡ faults self.now };

    /// Appends the bytes of the file to `into`.
    fn load(&mut self, alloc: Global, name: &str, into: &mut Vec<u8>) -> Result<(), LoadFault>
        ensures loaded { OnOk result (Loads (file self.old name.now) into.old.items into.new.items) }
        ensures front { OnOk result (StartsWith into.new.items into.old.items) }
        ensures unloaded { OnErr result (into.new.items ≡ into.old.items) }
        ensures files { (n : List ℕ) → file self.new n ≡ file self.old n }

        // `Failed` comes only where the count rose, and the name is then kept. Any other answer leaves both.
        ensures later { faults self.old ≤ faults self.new }
        ensures counted { IsErrOf result LoadFault.Failed → Rose (faults self.old) (faults self.new) }
        ensures named { IsErrOf result LoadFault.Failed → failed self.new ≡ name.now }
        ensures ok { OnOk result ((faults self.new ≡ faults self.old) × (failed self.new ≡ failed self.old)) }
        ensures memory { IsErrOf result LoadFault.Memory →
            (faults self.new ≡ faults self.old) × (failed self.new ≡ failed self.old) };
}

/// Input, as a stream of bytes.
pub trait Source {
    /// The bytes that are left, where they are told.
    ghost left: { Self → Option (List ℕ) };

    /// The number of calls that failed, up to 2^64 - 1.
    ghost faults: { Self → ℕ };

    fn faults(&self) -> u64
        ensures { result ≡ faults self.now };

    /// Moves the next bytes to the front of `into`, and answers how many: none only at the end, or with no room. A call
    /// that fails leaves `into` as it was.
    fn take(&mut self, into: &mut [u8]) -> Result<usize, Failed>
        ensures bound { IfOk result (λ n. n ≤ length into.old) }
        ensures taken { IfOk result (λ n. Consumes (left self.old) (left self.new) (take n into.new)) }
        ensures rest { IfOk result (λ n. drop n into.new ≡ drop n into.old) }
        ensures end { IfOk result (λ n. n ≡ 0 → 0 < length into.old → IsAtEnd (left self.new)) }

        // A call that fails takes no byte, and the buffer is as before.
        ensures untaken { OnErr result (Keeps (left self.old) (left self.new)) }
        ensures unchanged { OnErr result (into.new ≡ into.old) }

        // A failure comes only where the count rose, and a success leaves it.
        ensures later { faults self.old ≤ faults self.new }
        ensures counted { OnErr result (Rose (faults self.old) (faults self.new)) }
        ensures ok { OnOk result (faults self.new ≡ faults self.old) };
}

/// Output, as a stream of bytes.
pub trait Sink {
    /// The bytes that it holds, where they are told.
    ghost written: { Self → Option (List ℕ) };

    /// The number of calls that failed, up to 2^64 - 1.
    ghost faults: { Self → ℕ };

    fn faults(&self) -> u64
        ensures { result ≡ faults self.now };

    /// Appends all the bytes, a front of them where it failed, or none where memory was refused.
    fn put(&mut self, bytes: &[u8]) -> Result<(), PutFault>
        ensures appended { OnOk result (Appends (written self.old) (written self.new) bytes.now) }
        ensures cut_short { IsErrOf result PutFault.Failed → AppendsPrefix (written self.old) (written self.new) bytes.now }
        ensures unwritten { IsErrOf result PutFault.Memory → Keeps (written self.old) (written self.new) }

        // `Failed` comes only where the count rose. Any other answer leaves it.
        ensures later { faults self.old ≤ faults self.new }
        ensures counted { IsErrOf result PutFault.Failed → Rose (faults self.old) (faults self.new) }
        ensures ok { OnOk result (faults self.new ≡ faults self.old) }
        ensures memory { IsErrOf result PutFault.Memory → faults self.new ≡ faults self.old };
}
