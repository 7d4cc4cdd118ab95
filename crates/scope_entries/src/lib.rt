//! The declarations of a scope in the order of the text: each name with its line, and how a statement declares it.
//! `names_types/specs/Scopes` says which there are, and `specs/View` is the view of what stands here.
#![tactic(auto)]

mod brought;
mod entry;
mod scope;
mod written;

pub use brought::offer_named;
pub use entry::{Entry, Form};
pub use scope::{Place, entries};
pub use written::{result_name, type_in};
