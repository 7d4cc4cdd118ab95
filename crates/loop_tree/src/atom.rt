//! The atoms of LoopC: what is read, what is passed, and the operators.
ghost use Rattle.std.specs.Prelude.{◌≡◌, IfOk};

use a95_base::Bytes;
use sqlite_items::Boxed;
use std::alloc::{AllocError, Global};

/// The letter of a variable tells its type: `i`, `s`, `b` and `c`. Loop variables have the letter `k`, and no
/// parameter has it.
#[derive(Clone, Copy)]
pub enum Letter {
    /// A 64-bit integer, `iN`.
    Int,
    /// A text, `sN`.
    Text,
    /// A reference to a block of integers, `bN`.
    Ints,
    /// A reference to a block of texts, `cN`.
    Texts,
}

/// An integer that is read: `iN`, `kN` or a signed decimal.
#[derive(Clone, Copy)]
pub enum Atom {
    Int(u32),
    Loop(u32),
    Number(i64),
}

/// A text that is read: `sN` or a text between quotes.
#[derive(Drop)]
pub enum TextAtom {
    Variable(u32),
    Literal(Boxed<Bytes>),
}

impl TextAtom {
    /// A copy of its own memory.
    pub fn copy(&self, alloc: Global) -> Result<TextAtom, AllocError>
        ensures { IfOk result (λ t. t ≡ self.now) }
    {
        match self {
            TextAtom::Variable(n) => Ok(TextAtom::Variable(*n)),
            TextAtom::Literal(bytes) => {
                let bytes = bytes.get().copy(alloc)?;
                Ok(TextAtom::Literal(Boxed::new(alloc, bytes)?))
            }
        }
    }
}

/// A reference to a block of integers, `bN`, or of texts, `cN`.
#[derive(Clone, Copy)]
pub enum Reference {
    Ints(u32),
    Texts(u32),
}

/// What a call passes.
#[derive(Drop)]
pub enum Argument {
    Int(Atom),
    Text(TextAtom),
    Block(Reference),
}

impl Argument {
    /// A copy of its own memory.
    pub fn copy(&self, alloc: Global) -> Result<Argument, AllocError>
        ensures { IfOk result (λ a. a ≡ self.now) }
    {
        match self {
            Argument::Int(a) => Ok(Argument::Int(*a)),
            Argument::Text(t) => Ok(Argument::Text(t.copy(alloc)?)),
            Argument::Block(r) => Ok(Argument::Block(*r)),
        }
    }
}

/// The operators between two integers. Comparisons give 0 or 1.
#[derive(Clone, Copy)]
pub enum Operator {
    Add,
    Subtract,
    Multiply,
    Divide,
    Remainder,
    Less,
    LessEqual,
    Equal,
    NotEqual,
    And,
    Or,
}
