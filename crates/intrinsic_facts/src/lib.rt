//! The intrinsic functions, as code: which arguments each one takes, which extents of them must be the same, and what its value is,
//! by the kinds, ranks and known extents of the arguments. Each call is an equation with its definition in
//! `well_typed/specs/Intrinsics`, or finds no memory.
#![tactic(auto)]

mod arguments;
mod asking;
mod elements;
mod moving;
mod reducing;
mod whole;

pub use whole::{has_others, takes, value_facts};
