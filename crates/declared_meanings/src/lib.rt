//! What a declaration says that a name means: a variable of a rank, or a named constant with its type and its value. Names in its
//! expressions mean what the caller's `Senses` say. `names_types/specs/Scopes` says it on plain data, of which `specs/Objects` is
//! the view of an entity in its declaration.
#![tactic(auto)]

mod attributes;
mod constant;
mod meaning;

pub use attributes::dims;
pub use constant::{declared_length, kind_of, length_within};
pub use meaning::{copy_meaning, object_meaning};
