//! A mask and the elements under it in one nest. The statements stand in `specs/Where.antt`.

ghost use Rattle.std.specs.Prelude.{◌≡◌, Some, None, List, [], ◌∷◌, Ok, Err};
ghost use Rattle.store_laws.specs.Masked.{guarded, masked};
ghost use Rattle.store_laws.specs.Store.{deferred, values};
ghost use Rattle.store_rows.specs.Where.{Premises, QuietPremises, called, counting, nonzero, passing, positive, shared_out};
ghost use Rattle.store_rows.specs.Where.{stopping, turns};

/// `where (10 / m > 0) a = 100 / d`: the division by 0 under a false mask doesn't happen. Where a value and a later mask
/// would both stop the run, the nest stops at the value, and the mask before all values stops first: the same, if both stop
/// alike, and else not.
#[tactic(auto, using(crate::proofs::WhereLaws::premises_at))]
pub fn mask_and_elements()
    ensures passing { Premises 1 passing }
    ensures stopping { Premises 1 stopping }
    ensures first { masked (positive 1) (shared_out 1) turns passing ≡ Ok (record { value = Some 25 ∷ None ∷ Some 20 ∷ []; after = passing }) }
    ensures in_nest { values (guarded (positive 1) (shared_out 1)) turns passing
        ≡ Ok (record { value = Some 25 ∷ None ∷ Some 20 ∷ []; after = passing }) }
    ensures stored { deferred (guarded (positive 1) (shared_out 1)) turns passing ≡ Ok (25 ∷ 0 ∷ 20 ∷ 2 ∷ 20 ∷ 5 ∷ 4 ∷ 0 ∷ 5 ∷ 0 ∷ []) }
    ensures stops_first { masked (positive 1) (shared_out 1) turns stopping ≡ Err 1 }
    ensures stops_in_nest { values (guarded (positive 1) (shared_out 1)) turns stopping ≡ Err 1 }
    ensures unlike_first { masked (positive 2) (shared_out 1) turns stopping ≡ Err 2 }
    ensures unlike_in_nest { values (guarded (positive 2) (shared_out 1)) turns stopping ≡ Err 1 }
{}

/// A mask that never stops may stand in the nest of values that call a function: the call happens at true places alone.
#[tactic(auto, using(crate::proofs::WhereLaws::quiet_premises))]
pub fn called_under_mask()
    ensures premises { QuietPremises }
    ensures first { masked nonzero called turns counting
        ≡ Ok (record { value = Some 40 ∷ None ∷ Some 61 ∷ []; after = 0 ∷ 0 ∷ 0 ∷ 1 ∷ 0 ∷ 1 ∷ 40 ∷ 50 ∷ 60 ∷ 2 ∷ [] }) }
    ensures in_nest { values (guarded nonzero called) turns counting ≡ Ok
        (record { value = Some 40 ∷ None ∷ Some 61 ∷ []; after = 0 ∷ 0 ∷ 0 ∷ 1 ∷ 0 ∷ 1 ∷ 40 ∷ 50 ∷ 60 ∷ 2 ∷ [] }) }
{}
