//! The nest unit of a typed unit: scalars, control and PRINT so far. `specs/Trees` says what is left of an expression when its parts are
//! evaluated, `Units` which nests statements, declarations and the whole become, `Lowers` which units are lowered so far, `Settled`
//! what the reader has settled of them, `Limits` which limits are needed, and `Laws` what is known: the nests do what the source does,
//! and LoopC can be emitted from them. No code yet.
#![tactic(auto)]

mod laws;
mod rows;

pub use laws::{lowered_does, lowered_is_sound};
pub use rows::lowered_rows;
