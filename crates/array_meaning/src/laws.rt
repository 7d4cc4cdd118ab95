//! Laws of the meaning, for the layers above: each is the contract of a function that does nothing.

ghost use Rattle.array_meaning.specs.Frames.{FunctionCallsIgnore, StoresLeaveOthers, ValuesIgnoreOthers};
ghost use Rattle.array_meaning.specs.Purity.{PureCallsAreStill, PureFunctionsTakeTurns};
ghost use Rattle.array_meaning.specs.Reads.{PartsComeOfReads, PureFunctionsSeeActuals, ValuesComeOfReads, ValuesIgnoreStores};
ghost use Rattle.array_meaning.specs.RunLaws.{MoreTurns, ValuesAreFull, ConformingIsOneShape};
ghost use Rattle.array_meaning.specs.Sizes.{InquiriesAreLimited, ReductionsAreLimited, ValuesAreLimited};

/// More turns don't change how a source ended, and with more turns nothing that was written changes. A run has one outcome,
/// since it is a function of the unit, the input and the number of turns.
pub fn more_turns()
    ensures { MoreTurns }
{}

/// The value of an expression has as many elements as its extents say.
pub fn values_are_full()
    ensures { ValuesAreFull }
{}

/// The value of an expression has at most 2^24 elements, if what it takes as it is has no more: the results of calls, which are
/// tested where they are declared, and inquiries, MAXLOC and MINLOC, which have one element or one for each dimension of what
/// they ask about.
pub fn values_are_limited()
    ensures values { ValuesAreLimited }
    ensures inquiries { InquiriesAreLimited }
    ensures reductions { ReductionsAreLimited }
{}

/// Where two shapes conform they are one, or one of them is that of a scalar.
#[tactic(auto, using(crate::proofs::Wholeness::one_shape))]
pub fn conforming_is_one_shape()
    ensures { ConformingIsOneShape }
{}

/// The value of an expression doesn't depend on a variable that it doesn't name, and evaluating it leaves that variable alone, if
/// the procedures that it refers to do so.
pub fn values_ignore_others()
    ensures { ValuesIgnoreOthers }
{}

/// A call of a procedure that modifies no dummy, as of each function, comes to the same whatever a variable of the caller holds,
/// and leaves it alone. So `values_ignore_others` is of use with the caller that a run has.
pub fn function_calls_ignore()
    ensures { FunctionCallsIgnore }
{}

/// The value of an expression comes of the elements that it reads: where the variables of two states agree on these, on bounds,
/// lengths and allocation, it is the same, its fault and its turns too, and the variables stay, if its calls see their actuals
/// alone. With all places but one this says that no other element counts.
pub fn values_come_of_reads()
    ensures parts { PartsComeOfReads }
    ensures values { ValuesComeOfReads }
{}

/// An expression that reads no place of a store comes to the same before and behind it, and the store does the same behind it.
pub fn values_ignore_stores()
    ensures { ValuesIgnoreStores }
{}

/// A call of a procedure that is a pure function by its text sees its actuals alone. So the two laws above are of use with the
/// caller that a run has.
pub fn pure_functions_see_actuals()
    ensures { PureFunctionsSeeActuals }
{}

/// A store changes its variable, and no other one, no input, no output and no turn.
pub fn stores_leave_others()
    ensures { StoresLeaveOthers }
{}

/// A call of a procedure that is pure by its text reads no input, writes nothing and brings no turn back; one of a function takes
/// turns alone.
pub fn pure_calls()
    ensures still { PureCallsAreStill }
    ensures functions { PureFunctionsTakeTurns }
{}
