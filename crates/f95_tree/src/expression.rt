//! Expressions as they are written. Brackets are nodes.

use crate::terminal::{Operator, Sign};
use a95_base::SharedBytes;
use sqlite_items::{Boxed, Items};

#[derive(Drop)]
pub enum Literal {
    Number(i32),
    Text(SharedBytes),
    Logical(bool),
}

#[cycle(expression)]
#[derive(Drop)]
pub enum Expression {
    Literal(Literal),
    Reference(Reference),
    /// `( e )`
    Bracketed(Boxed<Expression>),
    /// `(/ value , value /)`
    Constructor(Items<Value>),
    Signed(Sign, Boxed<Expression>),
    Binary(Operator, Boxed<Expression>, Boxed<Expression>),
}

/// A variable, a part of one, or a function with its arguments: what it is follows from the name's declaration.
#[cycle(expression)]
#[derive(Drop)]
pub enum Reference {
    /// `name`
    Whole(SharedBytes),
    /// `name ( item , item )`, also with no item
    Items(SharedBytes, Boxed<Items<Item>>),
    /// `name ( item , item ) ( lower : upper )`. A substring of a whole variable is an item: `name ( lower : upper )`.
    Substring(SharedBytes, Boxed<Items<Item>>, Boxed<(Option<Expression>, Option<Expression>)>),
}

/// What stands in the brackets behind a name.
#[cycle(expression)]
#[derive(Drop)]
pub enum Item {
    Plain(Expression),
    /// `name = e`
    Keyword(SharedBytes, Expression),
    /// `lower : upper` and `lower : upper : stride`
    Triplet(Option<Boxed<Expression>>, Option<Boxed<Expression>>, Option<Boxed<Expression>>),
}

/// What stands in a constructor.
#[cycle(expression)]
#[derive(Drop)]
pub enum Value {
    One(Expression),
    /// `( value , value , name = first , last , step )`
    ImpliedDo(
        Boxed<Items<Value>>,
        SharedBytes,
        Boxed<Expression>,
        Boxed<Expression>,
        Option<Boxed<Expression>>,
    ),
}
