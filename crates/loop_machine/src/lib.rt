//! The machine that runs LoopC. `specs/Running.antt` says what contracts see of it, and what an answer tells of the run.
#![tactic(auto)]

mod calls;
mod end;
mod flow;
mod machine;
mod moves;
mod quick;
mod run;
mod step;
mod sweep;

pub use end::End;
pub use machine::Machine;
