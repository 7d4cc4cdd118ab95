//! How each node of a typed expression is made of typed parts, as code. Each call answers what `shape_check/specs/Nodes` makes, or
//! what is missing of it: `specs/Made` says when an answer is what is made, and `specs/View` sees the code's items as plain data.
#![tactic(auto)]

mod item;
mod laws;
mod missing;
mod operators;

pub use item::{Behind, Item};
pub use laws::{asking_composes, both_compose, then_composes};
pub use missing::Missing;
pub use operators::{bounding, signed};
