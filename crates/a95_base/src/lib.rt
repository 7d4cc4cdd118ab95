//! What every other crate of `f95a` stands on: source lines, rules of refusal and the first of them that is broken, runtime
//! faults, owned texts of bytes, stacks, scalar values, arithmetic of the 32-bit INTEGER and the functions on CHARACTER values,
//! limits, and steps on a state. Meanings stand in `specs/`: `Integer` and `Text` for the language's scalars, `Record` and
//! `Input` for PRINT and READ, `Steps` for what is done to a state, `Breaks` for what is broken, `Lists` for the words on lists.
#![tactic(auto)]

mod breaks;
mod bytes;
mod fault;
mod integer;
mod laws;
mod limits;
mod rules;
mod scalar;
mod shared;
mod source;
mod stack;
mod text;

pub use breaks::{Break, first_of};
pub use bytes::Bytes;
pub use fault::FaultKind;
pub use integer::{divide, modulo, power, raise, remainder, wrap32};
pub use laws::{integer_laws, step_laws};
pub use limits::{GREATEST_RANK, LONGEST_TEXT, LONGEST_WORD, MOST_ELEMENTS};
pub use scalar::{Kind, Scalar};
pub use shared::SharedBytes;
pub use source::{Line, Memory, PhaseError, Rule};
pub use stack::Stack;
pub use text::{compare_padded, fit};
