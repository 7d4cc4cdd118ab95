//! Assignments of whole arrays, sections, texts and scalars, and initial values. The sources stand in `specs/AssignmentsTwo.antt`.

ghost use Rattle.array_meaning_rows.specs.AssignmentsTwo.{SubstringStored, IntegersWrap, InitialValues, SevenDimensions};
ghost use Rattle.array_meaning_rows.specs.AssignmentsTwo.{SevenDimensionsEmpty, BoundsLeftOutAreDeclared, TwoDimensions};
ghost use Rattle.array_meaning_rows.specs.AssignmentsTwo.{TextArraysCompared, TrialOfNone};

#[tactic(auto, using(crate::proofs::AssignmentsTwoRows::substring_stored_row, crate::proofs::AssignmentsTwoRows::integers_wrap_row, crate::proofs::AssignmentsTwoRows::initial_values_row, crate::proofs::AssignmentsTwoRows::seven_dimensions_row, crate::proofs::AssignmentsTwoRows::seven_dimensions_empty_row, crate::proofs::AssignmentsTwoRows::bounds_left_out_are_declared_row, crate::proofs::AssignmentsTwoRows::two_dimensions_row, crate::proofs::AssignmentsTwoRows::text_arrays_compared_row, crate::proofs::AssignmentsTwoRows::trial_of_none_row))]
pub fn assignments_two_rows()
    ensures substring_stored { SubstringStored }
    ensures integers_wrap { IntegersWrap }
    ensures initial_values { InitialValues }
    ensures seven_dimensions { SevenDimensions }
    ensures seven_dimensions_empty { SevenDimensionsEmpty }
    ensures bounds_left_out_are_declared { BoundsLeftOutAreDeclared }
    ensures two_dimensions { TwoDimensions }
    ensures text_arrays_compared { TextArraysCompared }
    ensures trial_of_none { TrialOfNone }
{}
