//! What the source tells of variables, procedures, and arguments of intrinsics.

use a95_base::Kind;
use f95_unit::Facts;
use proc_calls::Interface;
use sqlite_items::Items;

/// A dimension's bounds, where the declaration makes them constant.
#[derive(Clone, Copy)]
pub struct Dim {
    pub lower: Option<i32>,
    pub upper: Option<i32>,
}

/// A variable; `input` is INTENT(IN).
#[derive(Drop)]
pub struct Variable {
    pub kind: Kind,
    pub length: Option<u32>,
    pub dims: Items<Dim>,
    pub allocatable: bool,
    pub input: bool,
}

/// What a reference sees of a procedure, and of a function what its result is.
#[derive(Drop)]
pub struct Callee {
    pub interface: Interface,
    pub result: Option<Facts>,
}

/// An argument at its place: what it is, what is known of its value (`entries` where it is a constructor of scalars), and whether
/// it is the bare name of an allocatable array.
#[derive(Drop)]
pub struct Given {
    pub place: usize,
    pub facts: Facts,
    pub known: Option<i32>,
    pub entries: Items<Option<i32>>,
    pub allocatable: bool,
}
