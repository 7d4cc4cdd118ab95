//! Bounds, counts and strides at the limits. The sources stand in `specs/Limits.antt`.

ghost use Rattle.array_meaning_rows.specs.Limits.{UpperBoundWraps, SizeWraps, GreatStride, GreatStep, GreatestBounds};
ghost use Rattle.array_meaning_rows.specs.Limits.{NoRowOfAThousand, SubstringOfNoElement, ImpliedDoStepOfZero};

#[tactic(auto, using(crate::proofs::LimitsRows::upper_bound_wraps_row, crate::proofs::LimitsRows::size_wraps_row, crate::proofs::LimitsRows::great_stride_row, crate::proofs::LimitsRows::great_step_row, crate::proofs::LimitsRows::greatest_bounds_row, crate::proofs::LimitsRows::no_row_of_a_thousand_row, crate::proofs::LimitsRows::substring_of_no_element_row, crate::proofs::LimitsRows::implied_do_step_of_zero_row))]
pub fn limits_rows()
    ensures upper_bound_wraps { UpperBoundWraps }
    ensures size_wraps { SizeWraps }
    ensures great_stride { GreatStride }
    ensures great_step { GreatStep }
    ensures greatest_bounds { GreatestBounds }
    ensures no_row_of_a_thousand { NoRowOfAThousand }
    ensures substring_of_no_element { SubstringOfNoElement }
    ensures implied_do_step_of_zero { ImpliedDoStepOfZero }
{}
