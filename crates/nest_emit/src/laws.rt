//! The laws of what is emitted: each is the contract of a function that does nothing.

ghost use Rattle.nest_emit.specs.EmitLaws.{ProgramSimulates, ProgramFollows};

/// At every number of turns the program of a unit comes to what the unit does, within as many turns as the unit has entries.
#[tactic(auto, using(crate::proofs::Whole::emit_simulates))]
pub fn program_simulates()
    ensures { ProgramSimulates }
{}

/// The program ends and faults as the unit does and not otherwise, what either writes while it goes on begins what the other
/// writes, and it is never stuck.
#[tactic(auto, using(crate::proofs::Whole::emit_follows))]
pub fn program_follows()
    ensures { ProgramFollows }
{}
