//! Small statements worked out with numbers, at which the premises of the laws of `store_laws` are met. Each function is a
//! row: it does nothing, and its contract has the premises of a law and what both of its sides come to.
#![tactic(auto)]

mod groups;
mod masks;
mod tests_behind;

pub use groups::{forms, three_nests, two_nests};
pub use masks::{called_under_mask, mask_and_elements};
pub use tests_behind::{between_loops, many_one, one_one};
