//! The statements of a unit, read one at a time: `body_move` is the step of `f95_nesting/specs/Machine` inside a unit, exactly.
//! What is open is moved and not copied.
#![tactic(auto)]

mod blocks;
mod body;
mod wheres;

pub use body::{body_move, done_of, is_empty, no_body};
