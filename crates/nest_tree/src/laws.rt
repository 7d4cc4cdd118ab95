//! Laws of the meaning, for the layers above: each is the contract of a function that does nothing.

ghost use Rattle.nest_tree.specs.Counts.{LoopsAreBounded, TurnsArePaid};
ghost use Rattle.nest_tree.specs.Frames.{CalledApart, OthersStay};
ghost use Rattle.nest_tree.specs.RunLaws.{DoesNotStray, MoreTurns};

/// More turns don't change how a unit ended, and with more turns nothing that was written changes. A run has one outcome, since
/// it is a function of the unit, the input and the number of turns.
pub fn more_turns()
    ensures { MoreTurns }
{}

/// A run that goes on has more entries than turns, since each turn is paid for by an entry before it. Loops add at most the
/// entries of loops that all run.
#[tactic(auto, using(crate::proofs::Bounded::loops_are_bounded))]
pub fn entries_are_counted()
    ensures turns { TurnsArePaid }
    ensures loops { LoopsAreBounded }
{}

/// What statements don't store into stays, however they come out, for calls that leave the caller's memory to the caller, as all
/// calls of a unit do.
#[tactic(auto, using(crate::proofs::Stays::others_stay))]
pub fn others_stay()
    ensures stay { OthersStay }
    ensures calls { CalledApart }
{}

/// A unit that does what a source does never strays, and its run is the source's.
#[tactic(auto, using(crate::proofs::TurnsOfRuns::does_not_stray))]
pub fn does_not_stray()
    ensures { DoesNotStray }
{}
