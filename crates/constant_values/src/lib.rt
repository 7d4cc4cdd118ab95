//! Expressions whose value is known before a run: what `names_types` says of an expression, of the reader's tree. Names mean what
//! the
//! caller's `Senses` say, so this serves constant expressions, specification expressions and prefixes alike.
#![tactic(auto)]

mod arguments;
mod expression;
mod senses;

pub use arguments::{arranged, keyword_place};
pub use expression::valued;
pub use senses::Senses;
