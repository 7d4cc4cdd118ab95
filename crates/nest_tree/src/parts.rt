//! What lowerings hand to one another.

use crate::statement::Statement;
use crate::unit::Sort;
use sqlite_items::Items;

/// Where the value of a part is.
#[derive(Clone, Copy)]
pub enum Held {
    Scalar(u32),
    Block(u32),
    List(u32),
}

/// A part: the statements that evaluate it, and where they leave its value.
#[derive(Drop)]
pub struct Part {
    pub list: Items<Statement>,
    pub held: Held,
}

/// The parts of a statement, in the order in which they are evaluated.
#[derive(Drop)]
pub struct Parts {
    pub entries: Items<Part>,
}

/// What the lowering of a procedure has taken: the next scalar, block or list has the next number.
#[derive(Drop)]
pub struct Scratch {
    pub scalars: Items<Sort>,
    pub blocks: Items<Sort>,
    pub lists: u32,
}
