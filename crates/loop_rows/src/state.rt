//! The machine's own state. `specs/Shown.antt` says what state of the definition it stands for.
use a95_base::{FaultKind, Stack};
use loop_heap::{Blocks, Halt};
use loop_tree::Atom;
use loop_values::{Links, Numbers, Words};
use record_io::Record;
use sqlite_items::Items;
use std::alloc::Global;

/// An open brace. `body` is the place of the first line of a loop's body.
#[derive(Clone, Copy)]
pub enum OpenBrace {
    Choice,
    Upward { k: u32, bound: Atom, body: usize },
    Downward { k: u32, body: usize },
    Forever { body: usize },
}

/// An active call: its function, the place of the line that comes next, the open braces, the variables of each letter,
/// the line that f_at set, and the number of blocks that were made before it.
#[derive(Drop)]
pub struct Active {
    pub routine: usize,
    pub place: usize,
    pub braces: Stack<OpenBrace>,
    pub ints: Numbers,
    pub indices: Numbers,
    pub texts: Words,
    pub int_blocks: Links,
    pub text_blocks: Links,
    pub line: u32,
    pub mark: u64,
}

/// A running program: the innermost call, its callers, the blocks, the pending record, and the input, of which so many
/// bytes were taken.
#[derive(Drop)]
pub struct Core {
    pub alloc: Global,
    pub active: Active,
    pub callers: Stack<Active>,
    pub blocks: Blocks,
    pub pending: Record,
    pub input: Items<u8>,
    pub taken: usize,
    /// Of the fault that ended the run, where one did.
    pub fault: FaultKind,
    /// What halted the run, where something did.
    pub halt: Halt,
}
