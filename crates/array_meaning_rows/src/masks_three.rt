//! WHERE whose body changes its mask, and FORALL without combinations or with negative strides. The sources stand in
//! `specs/MasksThree.antt`.

ghost use Rattle.array_meaning_rows.specs.MasksThree.{MaskChangedInItsBody, MaskedElsewheresInOrder, WhereWithinElsewhere};
ghost use Rattle.array_meaning_rows.specs.MasksThree.{WhereWithoutAnyPlace, WhereOfNoElements, ForallWithoutCombinations};
ghost use Rattle.array_meaning_rows.specs.MasksThree.{ForallBackwardsByTwo, ForallTransposes};

#[tactic(auto, using(crate::proofs::MasksThreeRows::mask_changed_in_its_body_row, crate::proofs::MasksThreeRows::masked_elsewheres_in_order_row, crate::proofs::MasksThreeRows::where_within_elsewhere_row, crate::proofs::MasksThreeRows::where_without_any_place_row, crate::proofs::MasksThreeRows::where_of_no_elements_row, crate::proofs::MasksThreeRows::forall_without_combinations_row, crate::proofs::MasksThreeRows::forall_backwards_by_two_row, crate::proofs::MasksThreeRows::forall_transposes_row))]
pub fn masks_three_rows()
    ensures mask_changed_in_its_body { MaskChangedInItsBody }
    ensures masked_elsewheres_in_order { MaskedElsewheresInOrder }
    ensures where_within_elsewhere { WhereWithinElsewhere }
    ensures where_without_any_place { WhereWithoutAnyPlace }
    ensures where_of_no_elements { WhereOfNoElements }
    ensures forall_without_combinations { ForallWithoutCombinations }
    ensures forall_backwards_by_two { ForallBackwardsByTwo }
    ensures forall_transposes { ForallTransposes }
{}
