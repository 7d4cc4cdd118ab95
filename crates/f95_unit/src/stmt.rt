//! Statements and the blocks that they form. CONTINUE stands for nothing, and so has no place here.

use crate::assign::{Assign, Forall, Target, Where};
use crate::expr::{Bound, Call, Expr};
use a95_base::Line;
use sqlite_items::Items;

#[cycle(statement)]
#[derive(Drop)]
pub enum Stmt {
    Assign(Assign),
    Where(Where),
    Forall(Forall),
    Call(Line, Call),
    Allocate(Line, Items<Allocation>),
    Deallocate(Line, Items<u32>),
    Print(Line, Items<Expr>),
    Read(Line, Items<Target>),
    /// IF and each ELSE IF, then the statements of ELSE.
    If(Items<Branch>, Items<Stmt>),
    /// The selector, each CASE, then the statements of CASE DEFAULT, wherever that stands.
    Select(Line, Expr, Items<Case>, Items<Stmt>),
    /// The variable, first, last, step and body.
    Do(Line, u32, Expr, Expr, Bound, Items<Stmt>),
    While(Line, Expr, Items<Stmt>),
    Forever(Line, Items<Stmt>),
    /// How many of the DOs around it lie inside the one that is left.
    Exit(Line, u32),
    /// How many of the DOs around it lie inside the one whose turn ends.
    Cycle(Line, u32),
    Return(Line),
    Stop(Line),
}

/// IF or ELSE IF with its condition and its statements.
#[cycle(statement)]
#[derive(Drop)]
pub struct Branch {
    pub line: Line,
    pub condition: Expr,
    pub body: Items<Stmt>,
}

/// CASE with its statements.
#[cycle(statement)]
#[derive(Drop)]
pub struct Case {
    pub ranges: Items<Range>,
    pub body: Items<Stmt>,
}

/// Values of a CASE, by their numbers among the unit's constants.
#[derive(Clone, Copy)]
pub enum Range {
    One(u32),
    From(u32),
    UpTo(u32),
    Between(u32, u32),
}

/// `name ( span , .. )` of ALLOCATE.
#[derive(Drop)]
pub struct Allocation {
    pub variable: u32,
    pub spans: Items<Span>,
}

/// `lower : upper`, or `upper` alone, whose lower bound is 1.
#[derive(Drop)]
pub struct Span {
    pub lower: Bound,
    pub upper: Expr,
}
