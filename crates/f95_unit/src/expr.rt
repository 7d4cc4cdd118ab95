//! Expressions and what stands in them.

use crate::facts::Facts;
use crate::operation::{BinaryOp, Elemental, Inquiry, Rearranging, Reduction, UnaryOp};
use a95_base::Scalar;
use sqlite_items::{Boxed, Items};

#[cycle(tree)]
#[derive(Drop)]
pub struct Expr {
    pub facts: Facts,
    pub node: Node,
}

#[cycle(tree)]
#[derive(Drop)]
pub enum Node {
    Literal(Scalar),
    /// A named constant, by its number among the unit's constants.
    Constant(u32),
    /// An index of a FORALL or the variable of an implied DO, by the number of such that stand around its own.
    Index(u32),
    Designator(Designator),
    /// `( e )`
    Brackets(Boxed<Expr>),
    Unary(UnaryOp, Boxed<Expr>),
    Binary(BinaryOp, Boxed<Expr>, Boxed<Expr>),
    Constructor(Items<Item>),
    Elemental(Elemental, Items<Argument>),
    Trim(Boxed<Expr>),
    /// With DIM, counted from 1, where it is given; likewise in the next two.
    Inquiry(Inquiry, Option<u8>, Subject),
    Reduction(Reduction, Option<u8>, Items<Argument>),
    Rearranging(Rearranging, Option<u8>, Items<Argument>),
    Call(Call),
}

/// A variable of the procedure by its number, and what of it is named.
#[cycle(tree)]
#[derive(Drop)]
pub struct Designator {
    pub variable: u32,
    pub access: Access,
    pub part: Part,
}

#[cycle(tree)]
#[derive(Drop)]
pub enum Access {
    Whole,
    /// One subscript for each dimension.
    At(Items<Subscript>),
}

/// The bytes of each element that are named.
#[cycle(tree)]
#[derive(Drop)]
pub enum Part {
    All,
    /// `( first : last )`
    Bytes(Bound, Bound),
}

#[cycle(tree)]
#[derive(Drop)]
pub enum Subscript {
    One(Boxed<Expr>),
    /// A rank-one array of subscripts.
    Vector(Boxed<Expr>),
    /// `first : last : stride`
    Triplet(Bound, Bound, Bound),
}

/// What may be left out.
#[cycle(tree)]
#[derive(Drop)]
pub enum Bound {
    Absent,
    Given(Boxed<Expr>),
}

/// A value of a constructor, or an implied DO with its values, first, last and step.
#[cycle(tree)]
#[derive(Drop)]
pub enum Item {
    Value(Boxed<Expr>),
    Loop(Items<Item>, Boxed<Expr>, Boxed<Expr>, Bound),
}

/// An argument with its place among the dummies, counted from 0. Arguments stand in the order of the text. One that belongs to no
/// dummy has a place past the last one, until the calls are tested.
#[cycle(tree)]
#[derive(Drop)]
pub struct Argument {
    pub place: u32,
    pub value: Expr,
}

/// What an inquiry asks about: an array variable by its bare name, or the value of an expression.
#[cycle(tree)]
#[derive(Drop)]
pub enum Subject {
    Name(u32),
    Of(Boxed<Expr>),
}

/// A procedure by its number, with the actual of each dummy. What is no procedure has a number past the last one, until the calls
/// are tested.
#[cycle(tree)]
#[derive(Drop)]
pub struct Call {
    pub procedure: u32,
    pub arguments: Items<Argument>,
}
