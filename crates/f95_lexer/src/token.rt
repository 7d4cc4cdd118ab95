//! The parts of a statement and the statements of a text.
use a95_base::{Line, SharedBytes};
use sqlite_items::Items;

/// One symbol.
#[derive(Clone, Copy, PartialEq, Eq)]
pub enum Mark {
    /// `(`
    Open,
    /// `)`
    Close,
    /// `(/`
    OpenArray,
    /// `/)`
    CloseArray,
    /// `,`
    Comma,
    /// `:`
    Colon,
    /// `::`
    DoubleColon,
    /// `=`
    Assign,
    /// `==`
    Equal,
    /// `/=`
    NotEqual,
    /// `<`
    Less,
    /// `<=`
    LessEqual,
    /// `>`
    Greater,
    /// `>=`
    GreaterEqual,
    /// `+`
    Plus,
    /// `-`
    Minus,
    /// `*`
    Star,
    /// `**`
    Power,
    /// `/`
    Slash,
    /// `//`
    Concat,
}

/// The smallest part of a statement that has a meaning.
#[derive(Drop)]
pub enum Token {
    /// A name or a keyword, in lower case.
    Word(SharedBytes),
    Number(i32),
    /// What stands between the delimiters of a character literal, a doubled delimiter once.
    Text(SharedBytes),
    /// What stands between the two points of a dotted word such as `.EQ.`, in lower case.
    Dotted(SharedBytes),
    Mark(Mark),
}

/// A statement that isn't empty.
#[derive(Drop)]
pub struct Statement {
    /// The line of its first token.
    pub line: Line,
    pub tokens: Items<Token>,
}

/// All statements of a text, in its order.
#[derive(Drop)]
pub struct Statements {
    pub list: Vec<Statement>,
    /// How many line feeds the text has.
    pub feeds: u32,
}
