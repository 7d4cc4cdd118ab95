//! The elemental functions on scalars whose value is known before a run: what `names_types/specs/Constants` says of a call of one.
#![tactic(auto)]

mod copies;
mod elemental;

pub use copies::{copy_argument, copy_scalar, copy_valued};
pub use elemental::{elemental_call, elemental_facts, elemental_worth};
