//! The rules on types, ranks and shapes, as code: of each question that a source asks, the rule that it breaks, or none. Each call
//! is an equation with `rule_of` of `well_typed/specs/Rules` at that question, or finds no memory.
#![tactic(auto)]

mod cases;
mod operands;
mod references;
mod statements;

pub use cases::matches;
pub use operands::{assigns, bounds, counts, decides, operates, selects, signs};
pub use references::{cuts, gathers, misrefers, refers, spreads, subscripts};
pub use statements::{allocates, fills, frees, masks, ranges, stores, takes, targets};
