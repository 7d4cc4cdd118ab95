//! Laws of the rules: each is the contract of a function that does nothing.
ghost use Rattle.proc_check.specs.Laws.{ListedAreBroken, FirstIsLeast, NoneIsUnbroken, WalkKeepsFirst};

/// The list of a unit's breaks has all that it breaks, and nothing else.
pub fn listed_are_broken()
    ensures { ListedAreBroken }
{}

/// The first break of the list is the least that the unit breaks; where there is none, it breaks nothing.
pub fn first_is_least()
    ensures least { FirstIsLeast }
    ensures unbroken { NoneIsUnbroken }
{}

/// One walk through a unit, part by part, comes to the first break of the list.
pub fn walk_keeps_first()
    ensures { WalkKeepsFirst }
{}
