//! Which typed unit a source is, and which rules on types, ranks and shapes it breaks. `specs/Statements` has the statements of a
//! nested source as plain data, `specs/Names` what names mean where an expression stands. What is made of a piece of a source is
//! a `Found`: a typed piece, and all questions that it asks (`specs/Found`, `Told`); the questions and the rules are those of
//! `well_typed`. `specs/Nodes`, `References` and `Expressions` say which typed expression an expression is, `specs/Assignments`,
//! `Executable` and `Blocks` the same of statements, `specs/Declared` and `Units` of the whole. `specs/Broken` says on which
//! lines a source breaks each rule, `specs/Listed` has all that it breaks as one list, and `specs/Asked` the least rule of each
//! question.
#![tactic(auto)]

mod laws;

pub use laws::{
    expressions_are_typed, first_is_least, has_one_unit, listed_are_broken, statements_are_typed,
    told_is_first, units_are_typed,
};
