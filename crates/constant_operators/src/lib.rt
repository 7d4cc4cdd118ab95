//! Operators on expressions whose value is known before a run: the kinds that they ask for, and the exact value that they give.
//! `specs/Operators` says both.
#![tactic(auto)]

mod laws;
mod operators;
mod scalars;
mod value;

pub use laws::known_within;
pub use operators::{
    a_text, a_truth, an_integer, binary, is_kind, literal, operator_facts, sign_facts, signed,
    worth_of_one, worth_of_two,
};
pub use scalars::{
    are_equivalent, compared, integer, integer_of, integer_or_spoilt, text_of, text_or_spoilt,
    truth, truth_of,
};
pub use value::{Argument, Facts, Valued, Worth};
