//! Declarations, procedures, and the whole unit.

use crate::expr::{Bound, Expr};
use crate::stmt::{Span, Stmt};
use a95_base::{Line, Scalar};
use sqlite_items::Items;

/// A source: the values of its named constants and of its CASEs, the main program, and the procedures of all modules and of the
/// main program.
#[derive(Drop)]
pub struct Unit {
    pub constants: Items<Scalar>,
    pub main: Procedure,
    pub procedures: Items<Procedure>,
}

/// The main program or a procedure. The line is that of its first statement.
#[derive(Drop)]
pub struct Procedure {
    pub line: Line,
    pub recursive: bool,
    pub pure: bool,
    pub elemental: bool,
    /// The declared variables, in the order in which their declarations act: a result that the FUNCTION statement types first.
    pub entities: Items<Entity>,
    /// The number of a function's result among the entities.
    pub result: Option<u32>,
    pub body: Items<Stmt>,
}

/// A variable. The line is that of its declaration.
#[derive(Drop)]
pub struct Entity {
    pub line: Line,
    pub of: DeclaredType,
    pub bounds: Bounds,
    pub role: Role,
    pub initial: Option<Expr>,
}

#[derive(Clone, Copy)]
pub enum DeclaredType {
    Integer,
    Logical,
    Character(Length),
}

#[derive(Clone, Copy)]
pub enum Length {
    Fixed(u32),
    /// `*`: that of the actual.
    Assumed,
}

#[derive(Drop)]
pub enum Bounds {
    /// A scalar has none.
    None,
    Explicit(Items<Span>),
    /// The lower bounds of an assumed-shape dummy, 1 where left out; the extents are the actual's.
    Assumed(Items<Bound>),
    /// The rank of an allocatable array.
    Deferred(u8),
}

#[derive(Clone, Copy)]
pub enum Role {
    /// A variable of its own, or the result.
    Own,
    /// A dummy, by its place in the list of dummies, counted from 0.
    Dummy(u32, Intent),
}

#[derive(Clone, Copy)]
pub enum Intent {
    In,
    Out,
    InOut,
}
