//! The typed unit: a source whose names, types and shapes are settled. The reader tests the calls in it last, so before that a
//! wrong call may stand in it, by a number or a place past the end (docs/DECISIONS.md); the meaning and all lowerings stand on a
//! unit in which nothing is wrong. A name is its declaration by number, an expression carries its kind, length and known extents,
//! a statement has its line, and each reference is what it is: a variable, an intrinsic function with its arguments in their
//! places, a call with the actual of each dummy. `specs/Plain` has the same unit as plain data, without memory, and `specs/View`
//! the function from the one to the other, `program_of`.
#![tactic(auto)]

mod assign;
mod expr;
mod facts;
mod operation;
mod stmt;
mod unit;

pub use assign::{Assign, Elsewhere, Forall, Masked, Target, Triplet, Where};
pub use expr::{
    Access, Argument, Bound, Call, Designator, Expr, Item, Node, Part, Subject, Subscript,
};
pub use facts::Facts;
pub use operation::{BinaryOp, Elemental, Inquiry, Rearranging, Reduction, UnaryOp};
pub use stmt::{Allocation, Branch, Case, Range, Span, Stmt};
pub use unit::{Bounds, DeclaredType, Entity, Intent, Length, Procedure, Role, Unit};
