//! What is known of an expression before a run.

use a95_base::{Kind, Scalar, SharedBytes};

/// The type, and the length of a text where it is known.
#[derive(Clone, Copy)]
pub struct Facts {
    pub kind: Kind,
    pub length: Option<usize>,
}

/// The value, where it is known.
#[derive(Drop)]
pub enum Worth {
    Is(Scalar),
    /// It has a fault, or leaves 32 bits.
    Spoilt,
    /// It names what has no value: a dummy, or a constant whose declaration breaks a rule.
    Unknown,
}

/// A scalar expression that may stand where it does.
#[derive(Drop)]
pub struct Valued {
    pub facts: Facts,
    pub worth: Worth,
}

/// An argument of a reference: its keyword, the name where it is a name alone, and what it is.
#[derive(Drop)]
pub struct Argument {
    pub keyword: Option<SharedBytes>,
    pub bare: Option<SharedBytes>,
    pub valued: Option<Valued>,
}
