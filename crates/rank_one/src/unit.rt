//! The typed unit of the first source form. What it means stands in `specs/Meaning.antt`.
use sqlite_items::Items;

/// What a source reads as: its arrays in the order of their declarations, and its statements. A place is an index into
/// `arrays`.
#[derive(Debug, Drop)]
pub struct Unit {
    pub arrays: Items<Array>,
    pub statements: Items<Statement>,
}

/// A declared array, with the line of its declaration.
#[derive(Clone, Copy, Debug, PartialEq, Eq)]
pub struct Array {
    pub line: u32,
    pub extent: u32,
}

#[derive(Debug, Drop)]
pub struct Statement {
    pub line: u32,
    pub action: Action,
}

#[derive(Debug, Drop)]
pub enum Action {
    /// Assigns a value to each element of the array at `target`.
    Assign { target: u32, value: Sum },
    /// Prints the elements of these arrays as one record.
    Print { arrays: Items<u32> },
}

#[derive(Debug, Drop)]
pub struct Sum {
    pub first: Term,
    pub rest: Items<Addend>,
}

#[derive(Debug, Drop)]
pub struct Addend {
    pub minus: bool,
    pub term: Term,
}

#[derive(Debug, Drop)]
pub struct Term {
    pub first: Factor,
    pub rest: Items<Factor>,
}

#[derive(Clone, Copy, Debug, PartialEq, Eq)]
pub enum Factor {
    Number(u32),
    /// The array at this place.
    Array(u32),
}
