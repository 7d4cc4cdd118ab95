//! The first phase of the reader: bytes to statements. A text is cut into lines; comments and continuations are taken
//! away; what is left of each statement is cut into tokens. The meaning stands in `specs/`: lines in `Lines`, which of them
//! make a statement in `Continuation`, the ten rules of refusal in `Rules`, and in `Spelling` what a text cuts into, which
//! `read_statements` promises. Below stand the same words as functions, which the code keeps to: `Splicing`, `Lexeme` and
//! `Statements`.
#![tactic(auto)]

mod character;
mod gather;
mod laws;
mod lexeme;
mod limits;
mod read;
mod splice;
mod token;
mod words;

pub use laws::{cuts_unbroken, one_cut};
pub use read::read_statements;
pub use token::{Mark, Statement, Statements, Token};
