//! What names mean in a scope, and what a module has for USE.

use a95_base::SharedBytes;
use constant_operators::Valued;
use sqlite_items::Items;

#[derive(Drop)]
pub enum Meaning {
    /// A named constant, with its type and its value.
    Constant(Valued),
    /// A variable of that rank.
    Variable(usize),
    /// A procedure.
    Called,
}

/// A name that a module has for USE: the module that has it as its own, by its place in the file, and what the name means.
#[derive(Drop)]
pub struct Share {
    pub name: SharedBytes,
    pub place: usize,
    pub meaning: Meaning,
}

/// What the module of this name has for USE.
#[derive(Drop)]
pub struct Offer {
    pub name: SharedBytes,
    pub shares: Items<Share>,
}
