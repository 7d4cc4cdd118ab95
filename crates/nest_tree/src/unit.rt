//! Procedures and the whole unit.

use crate::statement::Statement;
use a95_base::{Line, Scalar};
use f95_unit::DeclaredType;
use sqlite_items::Items;

/// The main program, the procedures, and the constants that they name.
#[derive(Drop)]
pub struct NestUnit {
    pub constants: Items<Scalar>,
    pub main: Procedure,
    pub procedures: Items<Procedure>,
}

/// A procedure: its declared variables, what the scalars and the blocks of its lowering hold, how many lists of subscripts there
/// are, and its statements.
#[derive(Drop)]
pub struct Procedure {
    pub line: Line,
    pub variables: Items<Declared>,
    pub scalars: Items<Sort>,
    pub blocks: Items<Sort>,
    pub lists: u32,
    pub body: Items<Statement>,
}

/// A declared variable.
#[derive(Clone, Copy)]
pub struct Declared {
    pub of: DeclaredType,
    pub rank: u8,
    pub role: Role,
}

/// What a variable is at its procedure's start. Dummies have the place of their actual.
#[derive(Clone, Copy)]
pub enum Role {
    /// Nothing, until it is made.
    Own,
    /// A value, which stays.
    Value(u32),
    /// A whole array, and whether it is modified.
    Whole(u32, bool),
    /// The result of a function, whose block the reference gives, at this place.
    Result(u32),
}

/// What a scalar or a tree gives: an exact integer of 64 bits, or a value of the language. Each INTEGER is an exact integer.
#[derive(Clone, Copy)]
pub enum Sort {
    Exact,
    Int,
    Log,
    Text,
}
