//! Element trees: what gives one value. An array's element is read at the place that an access has in the turn of the nest around.

use crate::access::{Access, Amount, Name};
use a95_base::Scalar;
use f95_unit::{BinaryOp, Elemental, UnaryOp};
use sqlite_items::{Boxed, Items};

#[cycle(tree)]
#[derive(Drop)]
pub enum Tree {
    Literal(Scalar),
    /// An exact integer.
    Number(i64),
    /// A named constant, by its number among the unit's constants.
    Constant(u32),
    /// What a scalar of the lowering holds.
    Fixed(u32),
    Read(Access),
    /// The element with this number, counted from 0, in array element order.
    Cell(Name, Boxed<Tree>),
    /// The entry with this number, counted from 0, of a list of subscripts.
    Entry(u32, Boxed<Tree>),
    /// The turn of a loop, counted from 0.
    Turn(u8),
    /// The number of the element that an access names.
    Place(Access),
    Asked(Question, Name),
    Unary(UnaryOp, Boxed<Tree>),
    Binary(BinaryOp, Boxed<Tree>, Boxed<Tree>),
    Exact(Exact, Boxed<Tree>, Boxed<Tree>),
    /// An exact integer modulo 2^32, as an INTEGER.
    Wrapped(Boxed<Tree>),
    Elemental(Elemental, Items<Operand>),
    Trim(Boxed<Tree>),
    /// The length of a text.
    Len(Boxed<Tree>),
    /// A reference to an elemental function: the block that takes its result, what that starts with, and the procedure.
    Applied(u32, Blank, u32, Items<Operand>),
}

/// An argument with its place among the dummies, counted from 0.
#[cycle(tree)]
#[derive(Drop)]
pub struct Operand {
    pub place: u32,
    pub value: Tree,
}

/// Operators on exact integers.
#[derive(Clone, Copy)]
pub enum Exact {
    Plus,
    Minus,
    Times,
    /// Cuts off towards zero.
    Over,
    Most,
    Least,
    Below,
    AtMost,
    Same,
}

/// What is asked about an array. Dimensions are counted from 1.
#[derive(Clone, Copy)]
pub enum Question {
    Lower(u8),
    Upper(u8),
    Extent(u8),
    /// How many elements.
    Size,
    /// The length of its elements.
    Length,
    Allocated,
}

/// What the elements of a block start with: 0, false, or blanks.
#[derive(Clone, Copy)]
pub enum Blank {
    Int,
    Log,
    Text(Amount),
}
