//! The calls of a typed unit, and what its procedures may be: phase 6 of the reader, rules 41 to 46. `proc_calls` says what a
//! reference sees of a procedure, and when one reference breaks a rule. `specs/References` says which references a procedure makes,
//! `specs/Rules` when a unit breaks each rule, and `specs/Broken` what a refusal says. The code walks through the unit once and
//! keeps the first break (`specs/Walk`), which is the first of the list of all (`specs/Listed`).
#![tactic(auto)]

mod assignments;
mod check;
mod expressions;
mod laws;
mod procedures;
mod statements;

pub use check::match_calls;
pub use laws::{first_is_least, listed_are_broken, walk_keeps_first};
