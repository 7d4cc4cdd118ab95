//! The parts of statements, read from terminals: what stands first and what stands behind it, and what the fields in brackets and
//! in rows are taken for. How each part is spelled stands in `f95_tree` (`Forms`, `WellFormed`); `specs/Views` has what stands
//! first, `specs/Parts` what fields are taken for.
#![tactic(auto)]

mod bounds;
mod part;
mod view;

pub use bounds::{dims_of, header_of};
pub use part::{Part, assignment_of, collected, spread_expression};
pub use view::{
    Keyed, Named, behind, behind_keyword, behind_name, behind_star, behind_word, is, is_nil, parted,
};
