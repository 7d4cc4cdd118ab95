//! Laws of runs, for the layers above: each is the contract of a function that does nothing.

ghost use Rattle.loop_tree.specs.RunLaws.{OneOutcome, EndStays, OutputGrows, TurnsAdd, SomeOutcome, WaysJoin, WaysMeet, EndIsLast};
ghost use Rattle.loop_tree.specs.RunLaws.{TurnIsCounted, StatementsPass};

/// A program has at most one outcome within a number of turns.
pub fn one_outcome()
    ensures { OneOutcome }
{}

/// More turns don't change an end.
pub fn end_stays()
    ensures { EndStays }
{}

/// With more turns nothing that was written changes.
pub fn output_grows()
    ensures { OutputGrows }
{}

/// A run that goes on after its turns were spent is one run.
pub fn turns_add()
    ensures { TurnsAdd }
{}

/// How ways between the states of a program join and meet, and where they end.
pub fn ways()
    ensures join { WaysJoin }
    ensures meet { WaysMeet }
    ensures end { EndIsLast }
    ensures turn { TurnIsCounted }
{}

/// The lines of whole statements leave the braces around them alone.
pub fn statements_pass()
    ensures { StatementsPass }
{}

/// A program has an outcome within any number of turns.
pub fn some_outcome()
    ensures { SomeOutcome }
{}
