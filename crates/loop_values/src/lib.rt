//! The variables of a running LoopC program, and the built-ins on integers and texts. The meaning of each stands in the
//! `specs/` of `loop_tree`.
#![tactic(auto)]

mod integers;
mod table;
mod texts;
mod variables;

pub use integers::{difference, operation, power, product, sum, truth, wrap, xor};
pub use text_functions::{adjust_left as left, adjust_right as right};
pub use texts::{char, code, compare, fit, index, join, over, sub, trim};
pub use variables::{Links, Numbers, Words};
