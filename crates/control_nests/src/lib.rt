//! Code for the definitions of `control_lower`: whether a typed unit is lowered so far (`src/lowers.rt`), and what is left of
//! an expression when its parts are evaluated (`src/expressions.rt`, by the steps of `src/made.rt`). Each function gives
//! exactly what the definition there says, of what `f95_unit` and `nest_tree` show of its values; `specs/View` shows what this
//! crate makes. Statements and whole units have no code yet.
#![tactic(auto)]

mod expressions;
mod lowers;
mod made;

pub use expressions::lowered;
pub use lowers::lowers_unit;
pub use made::{Lowered, LoweredAll};
