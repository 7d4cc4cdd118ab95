//! What a run comes to, proved from its end to its beginning.

ghost use Rattle.std.specs.Prelude.{ℕ, List};
ghost use Rattle.loop_tree.specs.State.{Brace, State};
ghost use Rattle.loop_tree.specs.declared.tree.CodeLine.{CodeLine};
ghost use Rattle.loop_tree.specs.declared.tree.Function.{Function};
ghost use Rattle.loop_laws.specs.At.{Variables};
ghost use Rattle.loop_laws.specs.Meets.{Expected, StepLaws, EndLaws};
ghost use Rattle.loop_laws.specs.Statements.{RowLaws, StatementLaws, UpwardLoop, DownwardLoop, EndlessLoop};

/// A step in front of what the rest of a run comes to.
#[tactic(auto, using(crate::proofs::Meets::step_laws))]
pub fn steps_in_front<A>()
    ensures { (functions : List Function) (turns : ℕ) (written : List ℕ) (s : State) (e : Expected) →
        StepLaws A functions turns written s e }
{}

/// Where a run ends, or begins more turns than the limit.
#[tactic(auto, using(crate::proofs::Meets::end_laws))]
pub fn ends()
    ensures { (functions : List Function) (turns : ℕ) (written : List ℕ) (s : State) (e : Expected) →
        EndLaws functions turns written s e }
{}

/// A row in front of what the rest of a run comes to.
#[tactic(auto, using(crate::proofs::Statements::row_laws))]
pub fn rows_in_front<A>()
    ensures { (functions : List Function) (turns : ℕ) (written : List ℕ) (v : Variables) (lines : List CodeLine)
        (braces : List Brace) (e : Expected) →
        RowLaws A functions turns written v lines braces e }
{}

/// A statement in front of what the rest of a run comes to.
#[tactic(auto, using(crate::proofs::Statements::statement_laws))]
pub fn statements_in_front()
    ensures { (functions : List Function) (turns : ℕ) (written : List ℕ) (v : Variables) (lines : List CodeLine)
        (braces : List Brace) (e : Expected) →
        StatementLaws functions turns written v lines braces e }
{}

/// A loop over 0, 1 and so on, from a law of its rounds.
#[tactic(auto, using(crate::proofs::Statements::upward_loop))]
pub fn upward_loop<P>()
    ensures { UpwardLoop P }
{}

/// A loop over the same numbers, the greatest first.
#[tactic(auto, using(crate::proofs::Statements::downward_loop))]
pub fn downward_loop<P>()
    ensures { DownwardLoop P }
{}

/// A loop that only its body leaves.
#[tactic(auto, using(crate::proofs::Statements::endless_loop))]
pub fn endless_loop<P>()
    ensures { EndlessLoop P }
{}
