//! A mask that each turn tests for itself, in place of a test at every turn before all evaluations. Both stand in
//! `specs/Masked.antt`.

ghost use Rattle.store_laws.specs.Masked.{StillMaskInNest, QuietMaskInNest};

/// Mask and elements in one nest: testing the mask at every turn and then evaluating at the true ones gives what the guarded
/// statement gives turn by turn, where evaluations are still and all stops are one, or where the mask never stops and no
/// evaluation changes it.
pub fn mask_in_nest<T, S, V, F>()
    ensures still { StillMaskInNest T S V F }
    ensures quiet { QuietMaskInNest T S V F }
{}
