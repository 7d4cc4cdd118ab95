//! The variables of a call, one container for each kind of value.
ghost use Rattle.std.specs.Prelude.{◌≡◌, [], ◌∷◌, ◌++◌, pos, None, IsTrue, false, IfSome, OnOk, OnErr};
ghost use Rattle.loop_tree.specs.State.{with_at};
ghost use Rattle.loop_tree.specs.Values.{number_at, text_at, block_at};

use crate::table::{First, Table};
use a95_base::Bytes;
use loop_heap::Link;
use std::alloc::{AllocError, Global};
use std::marker::Model;

impl First for i64 {
    ghost first = { pos 0 };

    fn first(_alloc: Global) -> i64 {
        0
    }
}

impl First for Bytes {
    ghost first = { [] };

    fn first(alloc: Global) -> Bytes {
        Bytes::new(alloc)
    }
}

impl First for Option<Link> {
    ghost first = { None };

    fn first(_alloc: Global) -> Option<Link> {
        None
    }
}

/// The variables `iN`, or `kN`, of a call. Contracts see the list of their values.
#[derive(Drop)]
pub struct Numbers {
    table: Table<i64>,
}

impl Model for Numbers {
    ghost use Rattle.std.specs.Prelude.{List, ℤ};
    ghost use Rattle.std.specs.Coded.{coded_list, coded_ℤ};

    ghost Value = { List ℤ };

    ghost coded = { coded_list coded_ℤ };

    ghost view = { λ v. v.table };
}

impl Numbers {
    /// No variable is set. Takes no memory.
    pub fn new(alloc: Global) -> Numbers
        ensures { result ≡ [] }
    {
        Numbers {
            table: Table::new(alloc),
        }
    }

    /// The value of variable n, 0 where it was not set.
    #[inline]
    pub fn get(&self, n: u32) -> i64
        ensures { result ≡ number_at self.now n }
    {
        match self.table.get_dense(n) {
            Some(value) => *value,
            None => self.look_up(n),
        }
    }

    // The same of a variable that stands in the list or not.
    #[cold]
    #[inline(never)]
    fn look_up(&self, n: u32) -> i64
        ensures { result ≡ number_at self.now n }
    {
        match self.table.get(n) {
            Some(value) => *value,
            None => 0,
        }
    }

    #[inline]
    pub fn set(&mut self, n: u32, value: i64) -> Result<(), AllocError>
        ensures ok { OnOk result (self.new ≡ with_at (pos 0) self.old n value) }
        ensures err { OnErr result (self.new ≡ self.old) }
    {
        self.table.set(n, value)
    }

    /// The value of variable n where it is dense: its number is small, and it or one behind it was set.
    #[inline(always)]
    pub fn get_dense(&self, n: u32) -> Option<i64>
        ensures { IfSome result (λ value. value ≡ number_at self.now n) }
    {
        match self.table.get_dense(n) {
            Some(value) => Some(*value),
            None => None,
        }
    }

    /// Sets variable n where it is dense, and answers whether it is.
    #[inline(always)]
    pub fn set_dense(&mut self, n: u32, value: i64) -> bool
        ensures set { IsTrue result → self.new ≡ with_at (pos 0) self.old n value }
        ensures stays { result ≡ false → self.new ≡ self.old }
    {
        self.table.set_dense(n, value)
    }

    /// Sets the variable behind the last one.
    pub fn push(&mut self, value: i64) -> Result<(), AllocError>
        ensures ok { OnOk result (self.new ≡ self.old ++ value ∷ []) }
        ensures err { OnErr result (self.new ≡ self.old) }
    {
        self.table.push(value)
    }
}

/// The variables `sN` of a call. Contracts see the list of their texts.
#[derive(Drop)]
pub struct Words {
    table: Table<Bytes>,
}

impl Model for Words {
    ghost use Rattle.std.specs.Prelude.{List, ℕ};
    ghost use Rattle.std.specs.Coded.{coded_list, coded_ℕ};

    ghost Value = { List (List ℕ) };

    ghost coded = { coded_list (coded_list coded_ℕ) };

    ghost view = { λ v. v.table };
}

impl Words {
    /// No variable is set. Takes no memory.
    pub fn new(alloc: Global) -> Words
        ensures { result ≡ [] }
    {
        Words {
            table: Table::new(alloc),
        }
    }

    /// The text of variable n, empty where it was not set.
    #[inline]
    pub fn get(&self, n: u32) -> &[u8]
        ensures { result.now ≡ text_at self.now n }
    {
        match self.table.get(n) {
            Some(value) => value.as_slice(),
            None => &[],
        }
    }

    #[inline]
    pub fn set(&mut self, n: u32, value: Bytes) -> Result<(), AllocError>
        ensures ok { OnOk result (self.new ≡ with_at [] self.old n value) }
        ensures err { OnErr result (self.new ≡ self.old) }
    {
        self.table.set(n, value)
    }

    /// Sets the variable behind the last one.
    pub fn push(&mut self, value: Bytes) -> Result<(), AllocError>
        ensures ok { OnOk result (self.new ≡ self.old ++ value ∷ []) }
        ensures err { OnErr result (self.new ≡ self.old) }
    {
        self.table.push(value)
    }
}

/// The variables `bN`, or `cN`, of a call. Contracts see the list of the numbers of their blocks.
#[derive(Drop)]
pub struct Links {
    table: Table<Option<Link>>,
}

impl Model for Links {
    ghost use Rattle.std.specs.Prelude.{List, Option, ℕ};
    ghost use Rattle.std.specs.Coded.{coded_list, coded_option, coded_ℕ};

    ghost Value = { List (Option ℕ) };

    ghost coded = { coded_list (coded_option coded_ℕ) };

    ghost view = { λ v. v.table };
}

impl Links {
    /// No variable is set. Takes no memory.
    pub fn new(alloc: Global) -> Links
        ensures { result ≡ [] }
    {
        Links {
            table: Table::new(alloc),
        }
    }

    /// The reference of variable n, None where it was not set.
    #[inline]
    pub fn get(&self, n: u32) -> Option<Link>
        ensures { result ≡ block_at self.now n }
    {
        match self.table.get(n) {
            Some(Some(link)) => Some(link.again()),
            _ => None,
        }
    }

    #[inline]
    pub fn set(&mut self, n: u32, value: Option<Link>) -> Result<(), AllocError>
        ensures ok { OnOk result (self.new ≡ with_at None self.old n value) }
        ensures err { OnErr result (self.new ≡ self.old) }
    {
        self.table.set(n, value)
    }

    /// Sets the variable behind the last one.
    pub fn push(&mut self, value: Option<Link>) -> Result<(), AllocError>
        ensures ok { OnOk result (self.new ≡ self.old ++ value ∷ []) }
        ensures err { OnErr result (self.new ≡ self.old) }
    {
        self.table.push(value)
    }
}
