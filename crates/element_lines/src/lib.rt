//! The lines of element trees: each function pushes to a body what `nest_emit/specs/Trees` says of it, no more and no less.
#![tactic(auto)]

mod arguments;
mod choices;
mod elementals;
mod operators;
mod trees;

pub use trees::tree_lines;
