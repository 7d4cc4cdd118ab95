//! Statements, functions and their lines.
use crate::atom::{Atom, Letter};
use crate::row::Row;
use sqlite_items::{Boxed, Items};

/// A statement, with the statements inside it.
#[derive(Drop)]
pub enum Stmt {
    Row(Row),
    /// `if (A) {` .. `}`
    If(Atom, Items<Stmt>),
    /// `if (A) {` .. `} else {` .. `}`
    IfElse(Atom, Items<Stmt>, Boxed<Items<Stmt>>),
    /// `for (kN = 0; kN < A; kN = kN + 1) {` .. `}`
    ForUp(u32, Atom, Items<Stmt>),
    /// `for (kN = A - 1; kN >= 0; kN = kN - 1) {` .. `}`
    ForDown(u32, Atom, Items<Stmt>),
    /// `while (1) {` .. `}`
    Forever(Items<Stmt>),
}

/// A function: the letters of its parameters, which are numbered from 0, and its statements.
#[derive(Drop)]
pub struct Function {
    pub parameters: Items<Letter>,
    pub body: Items<Stmt>,
}

/// One line of a function's text below its head.
#[derive(Drop)]
pub enum CodeLine {
    Row(Row),
    If(Atom),
    Else,
    ForUp(u32, Atom),
    ForDown(u32, Atom),
    Forever,
    /// The brace that closes the innermost one, at last the function's own.
    Close,
}
