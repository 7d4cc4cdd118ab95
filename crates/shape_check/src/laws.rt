//! Laws of the rules: each is the contract of a function that does nothing.
ghost use Rattle.shape_check.specs.Laws.{ListedAreBroken, FirstIsLeast, NoneIsUnbroken, ToldIsFirst, MadeBreaksNone};
ghost use Rattle.shape_check.specs.Laws.{ExpressionsAreTyped, StatementsAreTyped, UnitsAreTyped, OneUnit, SomeUnit};

/// The list of a source's breaks has all that it breaks, and nothing else.
pub fn listed_are_broken()
    ensures { ListedAreBroken }
{}

/// The first break of the list is the least that the source breaks; where there is none, it breaks nothing.
pub fn first_is_least()
    ensures least { FirstIsLeast }
    ensures unbroken { NoneIsUnbroken }
{}

/// Of each question the least rule that it breaks is enough to tell the first break.
pub fn told_is_first()
    ensures { ToldIsFirst }
{}

/// What is made of an expression is well typed, and then its questions break no rule.
pub fn expressions_are_typed()
    ensures typed { ExpressionsAreTyped }
    ensures unbroken { MadeBreaksNone }
{}

/// What is made of statements is well typed.
pub fn statements_are_typed()
    ensures { StatementsAreTyped }
{}

/// The typed unit that is made of a source is well typed.
pub fn units_are_typed()
    ensures { UnitsAreTyped }
{}

/// A source has one typed unit at most, and one where it breaks no rule on names and none of this phase.
pub fn has_one_unit()
    ensures most { OneUnit }
    ensures least { SomeUnit }
{}
