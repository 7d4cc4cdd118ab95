//! Expressions read from terminals, by a machine that takes one terminal a step and has a stack of what is open. The grammar stands
//! in `f95_tree` (`Spelling`, `Grades`); `specs/Fields` spells fields, `specs/Machine` is the machine, and `proofs/` tie the two
//! together. Here is what the machine is made of: fields, and what they become; `f95_fields` runs it.
#![tactic(auto)]

mod closing;
mod field;
mod pending;

pub use closing::{
    boxed, bracketed, expression_of, implied, items_of, made_part, values_of, whole, within,
};
pub use field::{assigned, coloned, field_of, lone};
pub use pending::{Bracket, Ending, Field, Held, Machine, Pending, Spread, Stage, pushed};
