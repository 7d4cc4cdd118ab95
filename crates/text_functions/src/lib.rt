//! The built-in functions on texts of bytes: `a95_base/specs/Text` says what each of them is. Places are counted from 1.
#![tactic(auto)]

mod blanks;
mod characters;

pub use blanks::{adjust_left, adjust_right, without_end_blanks};
pub use characters::{char_of, code_of, first_place};
