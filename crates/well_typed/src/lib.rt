//! Which typed units are well typed: what each part of a unit must keep, so that a meaning and a lowering may take it for granted.
//! `specs/Shapes`, `Operations`, `Known` and `Intrinsics` have the tables on types: which shapes conform, what the source tells of
//! variables, sections, constructors and constant expressions, and which arguments each intrinsic takes. What is said at one point
//! of a source is a question (`specs/Questions`), and each rule on types is a test of questions (`specs/Rules`). `specs/Typing`,
//! `Masks` and `Levels` have what an expression is by its parts, and what masks and indices around ask of an assignment;
//! `specs/Entities` what declarations tell of variables and procedures. `specs/WellTyped`, `WellTypedStatements` and
//! `WellTypedUnits` say when expressions, statements and units are well typed: in each place the question breaks no rule.
#![tactic(auto)]

mod asked;
mod family;
mod known;
mod laws;

pub use asked::{Listed, Range};
pub use family::Family;
pub use known::{Callee, Dim, Given, Variable};
pub use laws::{ranks_are_small, settled_breaks_none};
