//! The machine that reads expressions: it takes one terminal a step, and has a stack of what is open. What it reads is a list of
//! fields: what stands between commas, in brackets or to the end of a statement. `f95_expressions` says what the machine is
//! (`specs/Machine`), that it reads exactly the fields that are spelled, and has what it is made of.
#![tactic(auto)]

mod levels;
mod machine;
mod run;

pub use run::{Closed, bracket, row};
