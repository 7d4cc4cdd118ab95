//! Nests and scalar statements. A statement that may fault, or that makes a block, has its line.

use crate::access::{Access, Amount, Name};
use crate::frame::{AnyFrame, Header};
use crate::tree::{Blank, Tree};
use a95_base::{FaultKind, Line};
use sqlite_items::{Boxed, Items};

/// What a procedure, a nest or a part consists of.
pub type NestList = Items<Statement>;

#[cycle(statement)]
#[derive(Drop)]
pub enum Statement {
    /// A scalar of the lowering takes a value.
    Set(Line, u32, Tree),
    /// A fault where the value is false.
    Test(Line, FaultKind, Tree),
    Store(Boxed<Piece>),
    /// The element with a number, counted from 0, takes a value.
    StoreCell(Line, Name, Tree, Tree),
    Make(Line, Block),
    /// So many elements more at the end.
    Grow(Line, Name, Amount),
    /// Other bounds, and the elements as they are.
    Rebound(Line, Name, Items<Span>),
    Free(Line, Name),
    /// A list of so many subscripts; one entry takes a value; no list.
    MakeList(Line, u32, Amount),
    StoreEntry(Line, u32, Tree, Tree),
    FreeList(Line, u32),
    Nest(Boxed<Nest>),
    If(Line, Tree, Items<Statement>, Items<Statement>),
    /// Each round begins with the first statements and the condition. The turn begins behind the condition.
    While(Line, Items<Statement>, Tree, Items<Statement>),
    Call(Line, u32, Items<Passed>),
    /// The value joins the record that is being made.
    Put(Line, Tree),
    /// The record is written.
    Write,
    /// The next integer of the input, into a scalar. A comma may be passed where the second scalar is true.
    Take(Line, u32, u32),
    /// The rest of the record is passed. There has to be one, unless the scalar is true.
    Skip(Line, u32),
    /// How many of the loops around it lie inside the one that is left, or whose turn ends.
    Exit(u32),
    Cycle(u32),
    Return,
    Stop,
}

/// `target = value` at one element, where the guard is true.
#[derive(Drop)]
pub struct Piece {
    pub line: Line,
    pub target: Access,
    pub guard: Option<Guard>,
    pub value: Tree,
}

/// A mask that stands in the nest, with the line of its own statement.
#[derive(Drop)]
pub struct Guard {
    pub line: Line,
    pub test: Tree,
}

/// Loops over the places of a frame. The checks come before all loops. An own nest is one of an array assignment, a WHERE or a
/// FORALL, of which neighbours may be fused; the others do what stands beside, as a reduction.
#[cycle(statement)]
#[derive(Drop)]
pub struct Nest {
    pub own: bool,
    pub frame: AnyFrame,
    /// One for each loop.
    pub headers: Items<Header>,
    pub checks: Items<Statement>,
    pub body: Items<Statement>,
}

/// What a block is made for.
#[derive(Clone, Copy)]
pub enum Made {
    /// A declared variable, an object of ALLOCATE, or the result of a reference.
    New,
    Temporary,
    Copy,
    Mark,
}

/// A block that is made, with bounds.
#[derive(Drop)]
pub struct Block {
    pub made: Made,
    pub name: Name,
    pub blank: Blank,
    pub bounds: Items<Span>,
}

/// The bounds of a dimension.
#[derive(Clone, Copy)]
pub struct Span {
    pub lower: Amount,
    pub upper: Amount,
}

/// What a dummy is given: a value; a whole array, into which the procedure may store what it modifies; or the block of the result.
#[derive(Drop)]
pub enum Passed {
    Value(Tree),
    Whole(Name),
    Result(u32),
}
