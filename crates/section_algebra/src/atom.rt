//! What linear forms are sums of.

/// What a linear form knows by its number alone, as the value of a variable.
#[derive(Clone, Copy, PartialEq, Eq)]
pub struct Atom(pub u32);
