//! All that the rules on names ask of a scope: its declarations, what its names mean, its dummies, and what stands at its names.
//! `names_types/specs/Scopes` says each of these; a `Known` holds them for one scope, so each question takes no search through the
//! scope.
#![tactic(auto)]

mod asked;
mod attributes;
mod brought;
mod dummies;
mod knowing;
mod known;
mod marked;
mod scope;
mod settled;
mod specification;

pub use asked::{
    constant_senses, first_named, has_intent, is_dummy, is_own, is_repeated, name_line,
    prefix_senses,
};
pub use attributes::{AttributeSort, has_one_twice, has_sort};
pub use dummies::dummies_of;
pub use knowing::known_scope;
pub use known::Known;
pub use scope::Scope;
pub use settled::{is_of_host, is_settled, is_undeclared};
pub use specification::SpecificationSenses;
