//! From nests to LoopC: the lines of a unit, and that they do what the unit does. `specs/Numbers` says which variable holds what,
//! `Trees` has the lines of element trees and `Statements` those of statements, of procedures and of the whole, `Emits` which units
//! these are defined for so far, `Meets` what a run of a unit lets expect of the machine, `Kin` what the variables and blocks of the
//! machine have to do with a state of the nest run, and `EmitLaws` the two laws. No code yet.
//!
//! All goes by the laws of `loop_laws`, backwards: if behind its lines the machine does what goes on behind a statement, then it does
//! so from before them (`proofs/Runs` puts a step of the one and a row of the other in front). A value is in an atom by its sort, an
//! array in a block by its number (`proofs/Arrays`), the rounds of a loop over elements are one induction for both directions
//! (`proofs/Rounds`).
#![tactic(auto)]

mod laws;

pub use laws::{program_follows, program_simulates};
