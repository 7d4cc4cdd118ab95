//! Bytes to the typed unit, as far as the language is built: what `f95_reader` reads is a unit where it is of the first form
//! (`rank_one`), and is refused elsewhere. `specs/Source` says what bytes read as, and which rules they break.
#![tactic(auto)]

mod laws;
mod reading;

pub use f95_reader::Refusal;
pub use laws::{breaks_nothing, one_unit, unbroken_bytes_read, units_are_typed};
pub use rank_one::Unit;
pub use reading::read;
