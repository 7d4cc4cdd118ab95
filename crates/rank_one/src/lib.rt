//! The first source form, whole rank-one INTEGER arrays: which nested forms of the reader are of it, and its typed unit.
//! `specs/Reading.antt` says which source is which unit, and which rules the others break; `specs/Meaning.antt` what a unit
//! means, and `specs/Typed.antt` what every unit keeps.
#![tactic(auto)]

mod failure;
mod form;
mod forms;
mod laws;
mod name;
mod reading;
mod resolve;
mod symbols;
mod unit;

pub use form::{NamedAction, NamedAddend, NamedArray, NamedFactor, NamedSum, NamedTerm};
pub use laws::{forms_as_printed, one_unit, units_are_typed};
pub use reading::unit_of;
pub use symbols::Symbol;
pub use unit::{Action, Addend, Array, Factor, Statement, Sum, Term, Unit};
