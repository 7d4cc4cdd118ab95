//! The variables of one letter: those with small numbers in a list, the others in a map.
ghost use Rattle.std.specs.Prelude.{◌≡◌, ◌≤◌, [], ◌∷◌, ◌++◌, length, get_or, replicate, take, unwrap_or, IsTrue, false, IfSome};
ghost use Rattle.std.specs.Prelude.{OnOk, OnErr};
ghost use Rattle.std.specs.BTreeMap.{insert_entry, is_at};
ghost use Rattle.std.specs.Map.{lookup};
ghost use Rattle.std.specs.Option.{option_copied};
ghost use Rattle.std.specs.Ordering.{nat_cmp};
ghost use Rattle.loop_tree.specs.State.{with_at};

use std::alloc::{AllocError, Global};
use std::collections::BTreeMap;
use std::marker::Model;

/// What a variable holds, with the value that it has before it is set.
pub trait First: Drop {
    ghost first: { Self };

    fn first(alloc: Global) -> Self
        ensures { result ≡ first };
}

/// Variables from this number on stand in the map.
pub const DENSE: usize = 65_536;

/// Contracts see the list of the values. Those past its end have their first value.
#[derive(Drop)]
pub struct Table<T: First> {
    alloc: Global,
    low: Vec<T>,
    high: BTreeMap<u32, T>,
}

impl<T: First> Model for Table<T> {
    ghost use Rattle.std.specs.Prelude.{List, ◌++◌, ◌≤◌, length};
    ghost use Rattle.std.specs.Coded.{coded_list};
    ghost use Rattle.loop_values.specs.Spread.{spread, IsSpaced, dense};

    ghost Value = { List T };

    ghost coded = { coded_list T.code };

    ghost view = { λ t. t.low.items ++ spread T.first (length t.low.items) t.high.entries };

    ghost invariant = { λ t. (length t.low.items ≤ dense) × IsSpaced dense t.high.entries };
}

impl<T: First> Table<T> {
    pub fn new(alloc: Global) -> Table<T>
        ensures { result ≡ [] }
    {
        Table {
            alloc,
            low: Vec::new(alloc),
            high: BTreeMap::new(alloc),
        }
    }

    /// The value of a dense variable: one that stands in the list.
    #[inline]
    pub fn get_dense(&self, n: u32) -> Option<&T>
        ensures { IfSome result (λ value. value.now ≡ get_or self.now n T.first) }
    {
        self.low.get(n as usize)
    }

    /// The value of a variable, or None, where it is its first value.
    #[inline]
    pub fn get(&self, n: u32) -> Option<&T>
        ensures { unwrap_or (option_copied result) T.first ≡ get_or self.now n T.first }
    {
        match self.low.get(n as usize) {
            Some(value) => Some(value),
            None => look_up(&self.high, n),
        }
    }

    /// Sets a dense variable, and answers whether it is one.
    #[inline(always)]
    pub fn set_dense(&mut self, n: u32, value: T) -> bool
        ensures set { IsTrue result → self.new ≡ with_at T.first self.old n value }
        ensures stays { result ≡ false → self.new ≡ self.old }
    {
        let at = n as usize;
        if at >= self.low.len() {
            return false;
        }
        self.low[at] = value;
        true
    }

    #[inline]
    pub fn set(&mut self, n: u32, value: T) -> Result<(), AllocError>
        ensures ok { OnOk result (self.new ≡ with_at T.first self.old n value) }
        ensures err { OnErr result (self.new ≡ self.old) }
    {
        let at = n as usize;
        if at < self.low.len() {
            self.low[at] = value;
            return Ok(());
        }
        if at < DENSE {
            return put_at(self.alloc, &mut self.low, at, value);
        }
        put_in(&mut self.high, n, value)
    }

    /// Sets the variable behind the last one.
    pub fn push(&mut self, value: T) -> Result<(), AllocError>
        ensures ok { OnOk result (self.new ≡ self.old ++ value ∷ []) }
        ensures err { OnErr result (self.new ≡ self.old) }
    {
        if self.high.is_empty() {
            if self.low.len() < DENSE {
                self.low.push(value)?;
                return Ok(());
            }
        }
        let length = self.len();
        match u32::try_from(length) {
            Ok(n) => self.set(n, value),
            Err(_) => Err(AllocError),
        }
    }

    /// One more than the greatest number of a variable that was set.
    pub fn len(&self) -> usize
        ensures { result ≡ length self.now }
    {
        match self.high.last_key_value() {
            Some((n, _)) => *n as usize + 1,
            None => self.low.len(),
        }
    }
}

// The value at a number of a map.
#[cold]
#[inline(never)]
fn look_up<T: First>(high: &BTreeMap<u32, T>, n: u32) -> Option<&T>
    ensures { option_copied result ≡ lookup (is_at (nat_cmp n)) high.now.entries }
{
    high.get(&n)
}

// Sets a place past the end of a list, where those between get their first value.
#[cold]
#[inline(never)]
fn put_at<T: First>(alloc: Global, low: &mut Vec<T>, at: usize, value: T) -> Result<(), AllocError>
    requires { length low.old.items ≤ at }
    ensures ok { OnOk result (low.new.items ≡ with_at T.first low.old.items at value) }
    ensures err { OnErr result (low.new.items ≡ low.old.items) }
{
    let length = low.len();
    if fill(alloc, low, at - length).is_err() || low.push(value).is_err() {
        low.truncate(length);
        return Err(AllocError);
    }
    Ok(())
}

// Sets a number of a map.
#[cold]
#[inline(never)]
fn put_in<T: First>(high: &mut BTreeMap<u32, T>, n: u32, value: T) -> Result<(), AllocError>
    ensures ok { OnOk result (high.new.entries ≡ insert_entry nat_cmp high.old.entries n value) }
    ensures err { OnErr result (high.new.entries ≡ high.old.entries) }
{
    high.insert(n, value)?;
    Ok(())
}

// Adds so many first values.
fn fill<T: First>(alloc: Global, low: &mut Vec<T>, count: usize) -> Result<(), AllocError>
    ensures ok { OnOk result (low.new.items ≡ low.old.items ++ replicate count T.first) }
    ensures prefix { take (length low.old.items) low.new.items ≡ low.old.items }
{
    for _ in 0..count {
        low.push(T::first(alloc))?;
    }
    Ok(())
}
