//! Statements that may stand behind `IF ( e )`.

use crate::expression::{Expression, Literal, Reference};
use a95_base::SharedBytes;
use sqlite_items::{Boxed, Items};

#[derive(Drop)]
pub enum Action {
    Assignment(Boxed<Assignment>),
    /// `CALL name`, or with brackets
    Call(SharedBytes, Option<Boxed<Items<Argument>>>),
    Allocate(Items<Allocation>),
    Deallocate(Items<SharedBytes>),
    /// `PRINT *`
    Print(Items<Expression>),
    /// `WRITE ( * , * )`
    Write(Items<Expression>),
    /// `READ *`
    Read(Items<Reference>),
    /// `READ ( * , * )`
    ReadUnit(Items<Reference>),
    /// `STOP`, maybe with a number or a text
    Stop(Option<Literal>),
    Return,
    Continue,
    Exit(Option<SharedBytes>),
    Cycle(Option<SharedBytes>),
    /// `WHERE ( mask ) assignment`
    Where(Boxed<Expression>, Boxed<Assignment>),
    /// `FORALL header assignment`
    Forall(Boxed<Header>, Boxed<Assignment>),
}

/// `designator = e`
#[derive(Drop)]
pub struct Assignment {
    pub to: Reference,
    pub value: Expression,
}

/// `name = e`, or `e` alone
#[derive(Drop)]
pub struct Argument {
    pub keyword: Option<SharedBytes>,
    pub value: Expression,
}

/// `name ( bound , bound )`
#[derive(Drop)]
pub struct Allocation {
    pub name: SharedBytes,
    pub bounds: Items<Bound>,
}

#[derive(Drop)]
pub enum Bound {
    /// `upper`
    Upper(Expression),
    /// `lower : upper`
    Both(Expression, Expression),
}

/// `( name = lower : upper : stride , .. , mask )`
#[derive(Drop)]
pub struct Header {
    pub indices: Items<Index>,
    pub mask: Option<Boxed<Expression>>,
}

/// `name = lower : upper : stride`
#[derive(Drop)]
pub struct Index {
    pub name: SharedBytes,
    pub lower: Expression,
    pub upper: Expression,
    pub stride: Option<Expression>,
}
