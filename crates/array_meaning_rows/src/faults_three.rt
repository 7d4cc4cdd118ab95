//! Faults, and what comes before what. The sources stand in `specs/FaultsThree.antt`.

ghost use Rattle.array_meaning_rows.specs.FaultsThree.{MatricesDiffer, RightSideFirst, ScalarFunctionIsAPart, MaskedDivisionIsNone};
ghost use Rattle.array_meaning_rows.specs.FaultsThree.{ArgumentsOneAfterTheOther, NothingPrintedBeforeFault};
ghost use Rattle.array_meaning_rows.specs.FaultsThree.{SubscriptsBeforeStride, SubstringBeforeStride, StrideBeforeBounds};

#[tactic(auto, using(crate::proofs::FaultsThreeRows::matrices_differ_row, crate::proofs::FaultsThreeRows::right_side_first_row, crate::proofs::FaultsThreeRows::scalar_function_is_a_part_row, crate::proofs::FaultsThreeRows::masked_division_is_none_row, crate::proofs::FaultsThreeRows::arguments_one_after_the_other_row, crate::proofs::FaultsThreeRows::nothing_printed_before_fault_row, crate::proofs::FaultsThreeRows::subscripts_before_stride_row, crate::proofs::FaultsThreeRows::substring_before_stride_row, crate::proofs::FaultsThreeRows::stride_before_bounds_row))]
pub fn faults_three_rows()
    ensures matrices_differ { MatricesDiffer }
    ensures right_side_first { RightSideFirst }
    ensures scalar_function_is_a_part { ScalarFunctionIsAPart }
    ensures masked_division_is_none { MaskedDivisionIsNone }
    ensures arguments_one_after_the_other { ArgumentsOneAfterTheOther }
    ensures nothing_printed_before_fault { NothingPrintedBeforeFault }
    ensures subscripts_before_stride { SubscriptsBeforeStride }
    ensures substring_before_stride { SubstringBeforeStride }
    ensures stride_before_bounds { StrideBeforeBounds }
{}
