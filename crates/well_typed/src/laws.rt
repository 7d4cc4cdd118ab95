//! What is known of questions and of well typed expressions, as the contracts of functions that do nothing.
ghost use Rattle.well_typed.specs.Laws.{SettledBreaksNone, RanksAreSmall};

/// A question is settled exactly where it breaks no rule.
pub fn settled_breaks_none()
    ensures { SettledBreaksNone }
{}

/// Where variables and results of functions have at most seven dimensions, so has each well typed expression.
pub fn ranks_are_small()
    ensures { RanksAreSmall }
{}
