//! WHERE and FORALL. The sources stand in `specs/MasksOne.antt`.

ghost use Rattle.array_meaning_rows.specs.MasksOne.{WhereAndElsewhere, MaskedElsewhereAndNested, MaskEvaluatedOnce};
ghost use Rattle.array_meaning_rows.specs.MasksOne.{DivisionAtTruePlaces, ForallWithMask, ForallTwoAssignments, ForallBackwards};
ghost use Rattle.array_meaning_rows.specs.MasksOne.{MasksOfAnotherShape, ManyOneAtFalsePlaces};

#[tactic(auto, using(crate::proofs::MasksOneRows::where_and_elsewhere_row, crate::proofs::MasksOneRows::masked_elsewhere_and_nested_row, crate::proofs::MasksOneRows::mask_evaluated_once_row, crate::proofs::MasksOneRows::division_at_true_places_row, crate::proofs::MasksOneRows::forall_with_mask_row, crate::proofs::MasksOneRows::forall_two_assignments_row, crate::proofs::MasksOneRows::forall_backwards_row, crate::proofs::MasksOneRows::masks_of_another_shape_row, crate::proofs::MasksOneRows::many_one_at_false_places_row))]
pub fn masks_one_rows()
    ensures where_and_elsewhere { WhereAndElsewhere }
    ensures masked_elsewhere_and_nested { MaskedElsewhereAndNested }
    ensures mask_evaluated_once { MaskEvaluatedOnce }
    ensures division_at_true_places { DivisionAtTruePlaces }
    ensures forall_with_mask { ForallWithMask }
    ensures forall_two_assignments { ForallTwoAssignments }
    ensures forall_backwards { ForallBackwards }
    ensures masks_of_another_shape { MasksOfAnotherShape }
    ensures many_one_at_false_places { ManyOneAtFalsePlaces }
{}
