//! What the names of a scope mean, each with the declarations before it, and what a name means in a constant expression:
//! `names_types/specs/Scopes` says both. A name is looked up without search.
#![tactic(auto)]

mod filling;
mod meanings;
mod senses;

pub use filling::meanings_of;
pub use meanings::{Meanings, known_meaning};
pub use senses::{ConstantSenses, intrinsic_named};
