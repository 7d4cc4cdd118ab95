//! Forms nested into modules and a main program: phase 3 of the reader. `nest` answers the source that a list of forms nests to,
//! or the least rule of this phase that they break, as `f95_nesting` defines both.
#![tactic(auto)]

mod ends;
mod mark;
mod moves;
mod read;
mod roles;
mod sections;

pub use read::nest;
