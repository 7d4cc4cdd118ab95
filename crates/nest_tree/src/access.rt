//! What an element tree reads of an array and a piece stores into: one element in each turn of a nest.

use sqlite_items::Items;

/// An array: a declared variable by its number among those of the procedure, or a block that a lowering takes.
#[derive(Clone, Copy)]
pub enum Name {
    Own(u32),
    Temp(u32),
}

/// An exact integer that no store into an array changes: known in the text, or held by a scalar of the lowering.
#[derive(Clone, Copy)]
pub enum Amount {
    Number(i64),
    Kept(u32),
}

/// How the subscript of a dimension comes of the turn. Loops are counted from 1.
#[derive(Clone, Copy)]
pub enum Along {
    Alone(Amount),
    /// The loop, and the subscript at its turn 0, with what each further turn adds.
    Steps(u8, Amount, Amount),
    /// The loop, and the list of subscripts.
    Listed(u8, u32),
}

/// A linear form over the scalar variables and the bounds of a procedure, modulo 2^32.
#[derive(Drop)]
pub struct Form {
    pub constant: i32,
    pub terms: Items<FormTerm>,
}

#[derive(Clone, Copy)]
pub struct FormTerm {
    pub atom: u32,
    pub factor: i32,
}

/// A dimension of an access: its subscript; and, for the distance to other accesses alone, its stride where that is constant, and
/// its start where that is a linear form.
#[derive(Drop)]
pub struct Dimension {
    pub along: Along,
    pub stride: Option<i32>,
    pub start: Option<Form>,
}

/// The bytes of an element from `first` to `last`, counted from 1.
#[derive(Clone, Copy)]
pub struct Portion {
    pub first: Amount,
    pub last: Amount,
}

/// One dimension for each of the array's, and the bytes of the element where not all of it is meant.
#[derive(Drop)]
pub struct Access {
    pub name: Name,
    pub dimensions: Items<Dimension>,
    pub portion: Option<Portion>,
}
