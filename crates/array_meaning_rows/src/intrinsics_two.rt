//! Intrinsic functions and constructors. The sources stand in `specs/IntrinsicsTwo.antt`.

ghost use Rattle.array_meaning_rows.specs.IntrinsicsTwo.{Reshaped, Constructors, Powers, ScalarElementalIsAPart, PlaceByPlace};
ghost use Rattle.array_meaning_rows.specs.IntrinsicsTwo.{MatricesOneAfterTheOther, ShapeAsksForConformance, MergeEvaluatesAll};
ghost use Rattle.array_meaning_rows.specs.IntrinsicsTwo.{UnpackNeedsElements};

#[tactic(auto, using(crate::proofs::IntrinsicsTwoRows::reshaped_row, crate::proofs::IntrinsicsTwoRows::constructors_row, crate::proofs::IntrinsicsTwoRows::powers_row, crate::proofs::IntrinsicsTwoRows::scalar_elemental_is_a_part_row, crate::proofs::IntrinsicsTwoRows::place_by_place_row, crate::proofs::IntrinsicsTwoRows::matrices_one_after_the_other_row, crate::proofs::IntrinsicsTwoRows::shape_asks_for_conformance_row, crate::proofs::IntrinsicsTwoRows::merge_evaluates_all_row, crate::proofs::IntrinsicsTwoRows::unpack_needs_elements_row))]
pub fn intrinsics_two_rows()
    ensures reshaped { Reshaped }
    ensures constructors { Constructors }
    ensures powers { Powers }
    ensures scalar_elemental_is_a_part { ScalarElementalIsAPart }
    ensures place_by_place { PlaceByPlace }
    ensures matrices_one_after_the_other { MatricesOneAfterTheOther }
    ensures shape_asks_for_conformance { ShapeAsksForConformance }
    ensures merge_evaluates_all { MergeEvaluatesAll }
    ensures unpack_needs_elements { UnpackNeedsElements }
{}
