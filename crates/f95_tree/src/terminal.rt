//! The terminal symbols of the grammar. A token stands for one of them, or for two where a word joins two keywords.

use crate::expression::Literal;
use a95_base::SharedBytes;

/// What a statement is spelled with.
#[derive(Drop)]
pub enum Terminal {
    /// A word that isn't reserved, in lower case.
    Name(SharedBytes),
    Keyword(Keyword),
    Literal(Literal),
    Operator(Operator),
    /// `.NOT.`
    Not,
    Punctuation(Punctuation),
    /// What no form has.
    Stray,
}

/// A reserved word.
#[derive(Clone, Copy)]
pub enum Keyword {
    Unit(UnitWord),
    Type(TypeWord),
    Prefix(PrefixWord),
    Block(BlockWord),
    Action(ActionWord),
    Case,
    Contains,
    Else,
    End,
    Implicit,
    Use,
}

/// What begins a program unit or a procedure.
#[derive(Clone, Copy)]
pub enum UnitWord {
    Program,
    Module,
    Subroutine,
    Function,
}

#[derive(Clone, Copy)]
pub enum TypeWord {
    Integer,
    Logical,
    Character,
}

/// What may stand before SUBROUTINE and FUNCTION.
#[derive(Clone, Copy)]
pub enum PrefixWord {
    Recursive,
    Pure,
    Elemental,
}

/// What begins a block.
#[derive(Clone, Copy)]
pub enum BlockWord {
    If,
    Select,
    Do,
    Where,
    Forall,
}

/// What begins a statement that may stand behind `IF ( e )`.
#[derive(Clone, Copy)]
pub enum ActionWord {
    Call,
    Allocate,
    Deallocate,
    Print,
    Write,
    Read,
    Stop,
    Return,
    Continue,
    Exit,
    Cycle,
}

/// What stands between two operands. `==` and `.EQ.` are one, and so are the other relations.
#[derive(Clone, Copy)]
pub enum Operator {
    Power,
    Multiply,
    Divide,
    Add,
    Subtract,
    Concat,
    Relation(Relation),
    And,
    Or,
    Equivalent,
    NotEquivalent,
}

#[derive(Clone, Copy)]
pub enum Relation {
    Equal,
    NotEqual,
    Less,
    LessEqual,
    Greater,
    GreaterEqual,
}

/// What stands before one operand.
#[derive(Clone, Copy)]
pub enum Sign {
    Plus,
    Minus,
    Not,
}

#[derive(Clone, Copy)]
pub enum Punctuation {
    /// `(`
    Open,
    /// `)`
    Close,
    /// `(/`
    OpenArray,
    /// `/)`
    CloseArray,
    /// `,`
    Comma,
    /// `:`, and each half of a `::` inside brackets
    Colon,
    /// `::` outside brackets
    DoubleColon,
    /// `=`
    Assign,
}
