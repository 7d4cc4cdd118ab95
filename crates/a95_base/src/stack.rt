//! The stack in which readers and the machine keep what is open.
ghost use Rattle.std.specs.Prelude.{◌≡◌, [], ◌∷◌, length, reverse, ◌<◌, ◌^◌, OnOk, OnErr, MatchOption};
ghost use Rattle.a95_base.specs.Lists.{rest_of};

use sqlite_items::Items;
use std::alloc::{AllocError, Global};
use std::marker::Model;

/// A list whose first item is put and taken. Contracts see that list.
#[derive(Drop)]
pub struct Stack<T> {
    items: Vec<T>,
}

impl<T> Model for Stack<T> {
    ghost use Rattle.std.specs.Prelude.{List, reverse};
    ghost use Rattle.std.specs.Coded.{coded_list};

    ghost Value = { List T };

    ghost coded = { coded_list T.code };

    ghost view = { λ s. reverse s.items.items };
}

impl<T> Stack<T> {
    /// No items. Takes no memory.
    pub fn new(alloc: Global) -> Stack<T>
        ensures { result ≡ [] }
    {
        Stack {
            items: Vec::new(alloc),
        }
    }

    pub fn top(&self) -> Option<&T>
        ensures { MatchOption result (self.now ≡ []) (λ top. self.now ≡ top.now ∷ rest_of self.now) }
    {
        self.items.last()
    }

    /// The items, the first one last.
    pub fn as_slice(&self) -> &[T]
        ensures { reverse result.now ≡ self.now }
    {
        self.items.as_slice()
    }

    pub fn pop(&mut self) -> Option<T>
        ensures { MatchOption result ((self.old ≡ []) × (self.new ≡ [])) (λ top. self.old ≡ top ∷ self.new) }
    {
        self.items.pop()
    }
}

impl<T: Drop> Stack<T> {
    /// Takes the first item away, if there is one.
    pub fn drop_top(&mut self)
        ensures { self.new ≡ rest_of self.old }
    {
        let _ = self.pop();
    }

    /// The same list, as items, with no room for more.
    pub fn into_items(self) -> Items<T>
        ensures { result ≡ self }
    {
        let Stack { mut items } = self;
        items.reverse();
        items.shrink_to_fit();
        Items::from_vec(items)
    }

    /// The items, the first one last, with no room for more.
    pub fn into_reversed(self) -> Items<T>
        ensures { result ≡ reverse self }
    {
        let Stack { mut items } = self;
        items.shrink_to_fit();
        Items::from_vec(items)
    }

    pub fn len(&self) -> usize
        ensures length { result ≡ length self.now }
        ensures within { result < 2 ^ 63 }
    {
        self.items.len()
    }

    pub fn push(&mut self, item: T) -> Result<(), AllocError>
        ensures ok { OnOk result (self.new ≡ item ∷ self.old) }
        ensures err { OnErr result (self.new ≡ self.old) }
    {
        self.items.push(item)?;
        Ok(())
    }
}
