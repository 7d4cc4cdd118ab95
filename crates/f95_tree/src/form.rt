//! The forms of statements.

use crate::action::{Action, Header};
use crate::declaration::{Declaration, TypeSpec};
use crate::expression::Expression;
use crate::terminal::UnitWord;
use a95_base::SharedBytes;
use sqlite_items::{Boxed, Items};

/// A statement by itself.
#[derive(Drop)]
pub enum Form {
    Unit(UnitForm),
    Declaration(Boxed<Declaration>),
    Block(BlockForm),
    Action(Action),
    /// `IF ( condition ) action`
    If(Boxed<Expression>, Boxed<Action>),
}

/// What begins, parts and ends program units.
#[derive(Drop)]
pub enum UnitForm {
    Program(SharedBytes),
    Module(SharedBytes),
    Procedure(Boxed<Procedure>),
    /// `USE name`, or `USE name , ONLY :` with names
    Use(SharedBytes, Option<Boxed<Items<SharedBytes>>>),
    ImplicitNone,
    Contains,
    End,
    /// `END` with a second word, and maybe a name
    EndUnit(UnitWord, Option<SharedBytes>),
}

/// The statement that begins a procedure.
#[derive(Drop)]
pub struct Procedure {
    pub prefixes: Items<Prefix>,
    pub heading: Heading,
}

#[derive(Drop)]
pub enum Prefix {
    Recursive,
    Pure,
    Elemental,
    Type(TypeSpec),
}

#[derive(Drop)]
pub enum Heading {
    /// `SUBROUTINE name`, or with brackets and the names of dummies
    Subroutine(SharedBytes, Option<Items<SharedBytes>>),
    /// `FUNCTION name ( dummies )`, maybe with `RESULT ( name )`
    Function(SharedBytes, Items<SharedBytes>, Option<SharedBytes>),
}

/// What begins, parts and ends blocks. The first name of IF, SELECT and DO is the one before the colon.
#[derive(Drop)]
pub enum BlockForm {
    If(Option<SharedBytes>, Boxed<Expression>),
    ElseIf(Boxed<Expression>, Option<SharedBytes>),
    Else(Option<SharedBytes>),
    EndIf(Option<SharedBytes>),
    Select(Option<SharedBytes>, Boxed<Expression>),
    Case(Boxed<Items<CaseRange>>, Option<SharedBytes>),
    CaseDefault(Option<SharedBytes>),
    EndSelect(Option<SharedBytes>),
    Do(Option<SharedBytes>, Boxed<Control>),
    EndDo(Option<SharedBytes>),
    Where(Boxed<Expression>),
    ElseWhere(Option<Boxed<Expression>>),
    EndWhere,
    Forall(Boxed<Header>),
    EndForall,
}

#[derive(Drop)]
pub enum CaseRange {
    One(Expression),
    /// `lower :`
    From(Expression),
    /// `: upper`
    UpTo(Expression),
    /// `lower : upper`
    Between(Expression, Expression),
}

/// What says how often a DO turns. The flag tells whether a comma stands before it.
#[derive(Drop)]
pub enum Control {
    Forever,
    /// `name = first , last , step`
    Counted(bool, SharedBytes, Boxed<Expression>, Boxed<Expression>, Option<Boxed<Expression>>),
    /// `WHILE ( condition )`
    While(bool, Boxed<Expression>),
}
