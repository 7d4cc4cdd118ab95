//! What the text of a nest unit tells of values: the sort of each element tree, of arrays and of scalars. Each function is its
//! definition in `nest_tree/specs/Sound`. `specs/Seen` says how the definitions see where the code stands.
#![tactic(auto)]

mod accesses;
mod dummies;
mod names;
mod operators;
mod scope;
mod sorts;
mod trees;

pub use accesses::is_own_text;
pub use names::{scalar_at, sort_of_name};
pub use operators::elemental_sort;
pub use scope::Scope;
pub use sorts::{is_sort, some_serves};
pub use trees::{sort_of, sorts_of};
