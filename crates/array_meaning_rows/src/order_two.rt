//! What is evaluated and tested before what. The sources stand in `specs/OrderTwo.antt`.

ghost use Rattle.array_meaning_rows.specs.OrderTwo.{MaskOfAnotherShape, NestedMaskOfAnotherShape, MaskShapeBeforeManyOne};
ghost use Rattle.array_meaning_rows.specs.OrderTwo.{LeftPartsBehindRightInForall};

#[tactic(auto, using(crate::proofs::OrderTwoRows::mask_of_another_shape_row, crate::proofs::OrderTwoRows::nested_mask_of_another_shape_row, crate::proofs::OrderTwoRows::mask_shape_before_many_one_row, crate::proofs::OrderTwoRows::left_parts_behind_right_in_forall_row))]
pub fn order_two_rows()
    ensures mask_of_another_shape { MaskOfAnotherShape }
    ensures nested_mask_of_another_shape { NestedMaskOfAnotherShape }
    ensures mask_shape_before_many_one { MaskShapeBeforeManyOne }
    ensures left_parts_behind_right_in_forall { LeftPartsBehindRightInForall }
{}
