//! What the source alone tells of the parts of a typed unit, as code: values of constant expressions, extents of sections and
//! constructors, lengths of substrings, and what declarations tell of variables and procedures. Each call is an equation with its
//! definition in `well_typed/specs/Known` and `Entities`, or finds no memory.
#![tactic(auto)]

mod constructors;
mod counts;
mod designators;
mod entities;
mod worth;

pub use constructors::{constructor_facts, known_entries};
pub use designators::designator_facts;
pub use entities::{callee_of, callees_of, variable_of, variables_of};
pub use worth::{bound_known, integer_known, worth_of};
