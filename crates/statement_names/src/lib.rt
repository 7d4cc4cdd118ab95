//! The names that expressions and statements name: what `names_types/specs/View` says of them, of the reader's trees. Each function
//! adds the names, or each name with the line of its statement, at the end of a list.
#![tactic(auto)]

mod actions;
mod blocks;
mod expressions;
mod lines;
mod named;

pub use blocks::statements_mentions;
pub use expressions::expression_names;
pub use lines::{note, note_names};
pub use named::Named;
