//! The intrinsics: their names, their sorts, and the keywords and places of their arguments. `specs/Table` has them line by line,
//! and `specs/Interface` says what follows of a name, a keyword or a place.
#![tactic(auto)]

mod intrinsic;
mod laws;
mod names;
mod places;

pub use intrinsic::{Intrinsic, Sort};
pub use laws::table_laws;
pub use names::{interface, sort_of};
pub use places::{argument_place, is_needed};
