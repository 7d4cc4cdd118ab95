//! Names, types and scopes of a nested source: phase 4 of the reader, rules 18 to 30. Definitions and laws on them; no code stands
//! here yet. `specs/Plain` is the nested source as plain data and `specs/View` makes it of the reader's trees; of statements it
//! keeps the names that they name. `specs/Scopes` says which names each scope declares and what they mean, `specs/Constants` which
//! expressions are constant or may stand in a bound, and with which value, `specs/Rules` on which lines each rule holds, and
//! `specs/Broken` what a refusal says. `specs/Listed` has all that a source breaks as one list.
#![tactic(auto)]

mod laws;
mod meaning;
mod mention;
mod sense;

pub use laws::{
    each_declared_once, expressions_as_written, first_is_least, host_is_declared,
    listed_are_broken, statements_as_written,
};
pub use meaning::{Meaning, Offer, Share};
pub use mention::Mention;
pub use sense::Sense;
