//! The trees of the reader: the terminals of the grammar, expressions, forms of statements, and nested forms. A statement is of
//! a form where its terminals spell the form; `specs/Spelling` spells expressions and `specs/Forms` forms, `specs/Levels` is
//! the table of precedence, and `specs/WellFormed` says what else a form must keep. No code stands here.
#![tactic(auto)]

mod action;
mod declaration;
mod expression;
mod form;
mod source;
mod terminal;

pub use action::{Action, Allocation, Argument, Assignment, Bound, Header, Index};
pub use declaration::{Attribute, Declaration, Dim, Entity, Intent, Length, TypeSpec};
pub use expression::{Expression, Item, Literal, Reference, Value};
pub use form::{BlockForm, CaseRange, Control, Form, Heading, Prefix, Procedure, UnitForm};
pub use source::{
    Branch, Case, ElseWhere, Ending, Main, Module, Otherwise, Section, Source, Statement,
    Subprogram, WhereBlock, WhereStatement,
};
pub use terminal::{
    ActionWord, BlockWord, Keyword, Operator, PrefixWord, Punctuation, Relation, Sign, Terminal,
    TypeWord, UnitWord,
};
