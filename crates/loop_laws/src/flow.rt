//! Where choices, loops and breaks lead.

ghost use Rattle.loop_laws.specs.Braces.{Split, FirstRow, FirstIf, FirstIfElse, FirstUp, FirstDown, FirstForever, IfStep};
ghost use Rattle.loop_laws.specs.Braces.{IfElseStep, ElseStep, ChoiceEndStep, UpStep, UpEndStep, DownStep, DownEndStep};
ghost use Rattle.loop_laws.specs.Braces.{ForeverStep, ForeverEndStep, BreakStep, ContinueStep, ClosingLaws};

/// The lines of two lists of statements, and of a list with each kind of statement in front.
pub fn lines_of_statements()
    ensures both { Split }
    ensures row { FirstRow }
    ensures choice { FirstIf }
    ensures choice_of_two { FirstIfElse }
    ensures upward { FirstUp }
    ensures downward { FirstDown }
    ensures endless { FirstForever }
{}

/// A choice, and the ends of its branches.
pub fn choices()
    ensures choice { IfStep }
    ensures choice_of_two { IfElseStep }
    ensures other_branch { ElseStep }
    ensures last_brace { ChoiceEndStep }
{}

/// The heads and the closing braces of loops.
pub fn loops()
    ensures upward { UpStep }
    ensures upward_end { UpEndStep }
    ensures downward { DownStep }
    ensures downward_end { DownEndStep }
    ensures endless { ForeverStep }
    ensures endless_end { ForeverEndStep }
{}

/// Where the innermost loop is closed.
#[tactic(auto, using(crate::proofs::Braces::closing_laws))]
pub fn closing_braces()
    ensures { ClosingLaws }
{}

/// `break` leads behind the innermost loop, and `continue` to its closing brace.
#[tactic(auto, using(crate::proofs::Braces::step_break, crate::proofs::Braces::step_continue))]
pub fn leaving_loops()
    ensures out { BreakStep }
    ensures on { ContinueStep }
{}
