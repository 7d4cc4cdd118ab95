//! What is evaluated and tested before what. The sources stand in `specs/OrderOne.antt`.

ghost use Rattle.array_meaning_rows.specs.OrderOne.{LeftPartsBehindRight, DotProductPlaceByPlace, PackOneAfterTheOther};
ghost use Rattle.array_meaning_rows.specs.OrderOne.{ArgumentsInTextOrder, ForallCombinationByCombination};
ghost use Rattle.array_meaning_rows.specs.OrderOne.{ForallElementsBeforeManyOne, CallTestedBeforeItsTurn};
ghost use Rattle.array_meaning_rows.specs.OrderOne.{ExtentOfADeclarationFaults, LengthBeforeBounds};

#[tactic(auto, using(crate::proofs::OrderOneRows::left_parts_behind_right_row, crate::proofs::OrderOneRows::dot_product_place_by_place_row, crate::proofs::OrderOneRows::pack_one_after_the_other_row, crate::proofs::OrderOneRows::arguments_in_text_order_row, crate::proofs::OrderOneRows::forall_combination_by_combination_row, crate::proofs::OrderOneRows::forall_elements_before_many_one_row, crate::proofs::OrderOneRows::call_tested_before_its_turn_row, crate::proofs::OrderOneRows::extent_of_a_declaration_faults_row, crate::proofs::OrderOneRows::length_before_bounds_row))]
pub fn order_one_rows()
    ensures left_parts_behind_right { LeftPartsBehindRight }
    ensures dot_product_place_by_place { DotProductPlaceByPlace }
    ensures pack_one_after_the_other { PackOneAfterTheOther }
    ensures arguments_in_text_order { ArgumentsInTextOrder }
    ensures forall_combination_by_combination { ForallCombinationByCombination }
    ensures forall_elements_before_many_one { ForallElementsBeforeManyOne }
    ensures call_tested_before_its_turn { CallTestedBeforeItsTurn }
    ensures extent_of_a_declaration_faults { ExtentOfADeclarationFaults }
    ensures length_before_bounds { LengthBeforeBounds }
{}
