//! From forward to both directions.

ghost use Rattle.loop_laws.specs.Follows.{FollowsBothWays, WithMoreTurns};

/// A program that comes to what its source does, at every number of turns and within a bound on its own, follows it: it ends
/// and faults as the source does and not otherwise, what either writes while it goes on begins what the other writes, and it
/// is never stuck.
#[tactic(auto, using(crate::proofs::Follows::follows_both_ways))]
pub fn follows_both_ways()
    ensures { FollowsBothWays }
{}

/// With as many turns as the bound asks for, or more, such a program has done what its source does.
#[tactic(auto, using(crate::proofs::Follows::with_more_turns))]
pub fn with_more_turns()
    ensures { WithMoreTurns }
{}
