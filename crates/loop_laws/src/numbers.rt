//! Variables and blocks by their numbers, and what is read and changed where nothing is wrong.

ghost use Rattle.loop_laws.specs.Within.{CellsThere, IntsThere, TextsThere, ChangeThere, FreedThere, IntWithin, TextWithin};
ghost use Rattle.loop_laws.specs.Within.{StoreIntWithin, StoreTextWithin, ZerosWithin, TextsWithin, GrownWithin, TruthHolds};
ghost use Rattle.loop_laws.specs.Within.{PositiveHolds};
ghost use Rattle.loop_laws.specs.Numbered.{SetHere, SetElsewhere, MadeHere, MadeElsewhere, ChangedHere, ChangedElsewhere};
ghost use Rattle.loop_laws.specs.Numbered.{FreedHere, FreedElsewhere, MadeInCall, MadeBeforeCall};

/// What a reference to a living block gives, and what changes and freeing leave.
pub fn living_blocks()
    ensures cells { CellsThere }
    ensures ints { IntsThere }
    ensures texts { TextsThere }
    ensures change { ChangeThere }
    ensures free { FreedThere }
{}

/// A variable that is set, and every other one.
#[tactic(auto, using(crate::proofs::Numbered::with_at_same, crate::proofs::Numbered::with_at_other,))]
pub fn variables_by_number<A>()
    ensures here { SetHere A }
    ensures elsewhere { SetElsewhere A }
{}

/// A block that is made, changed or freed, or that a call left, and every other one.
pub fn blocks_by_number()
    ensures made { MadeHere }
    ensures made_elsewhere { MadeElsewhere }
    ensures changed { ChangedHere }
    ensures changed_elsewhere { ChangedElsewhere }
    ensures freed { FreedHere }
    ensures freed_elsewhere { FreedElsewhere }
    ensures made_in_call { MadeInCall }
    ensures made_before_call { MadeBeforeCall }
{}

/// An index within its block, a size that is allowed, and conditions that hold.
pub fn values_within()
    ensures int { IntWithin }
    ensures text { TextWithin }
    ensures store_int { StoreIntWithin }
    ensures store_text { StoreTextWithin }
    ensures zeros { ZerosWithin }
    ensures texts { TextsWithin }
    ensures grown { GrownWithin }
    ensures truth { TruthHolds }
    ensures positive { PositiveHolds }
{}
