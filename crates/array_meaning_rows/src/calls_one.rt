//! Subroutines and functions. The sources stand in `specs/CallsOne.antt`.

ghost use Rattle.array_meaning_rows.specs.CallsOne.{TwoSectionsApart, TwoSectionsOverlap, ElementalReference};
ghost use Rattle.array_meaning_rows.specs.CallsOne.{ElementalReferenceFaults, ExplicitShapeDummy, ExplicitShapeDiffers, Factorial};
ghost use Rattle.array_meaning_rows.specs.CallsOne.{ArrayFunctionAndTexts, LowerBoundsAndOut};

#[tactic(auto, using(crate::proofs::CallsOneRows::two_sections_apart_row, crate::proofs::CallsOneRows::two_sections_overlap_row, crate::proofs::CallsOneRows::elemental_reference_row, crate::proofs::CallsOneRows::elemental_reference_faults_row, crate::proofs::CallsOneRows::explicit_shape_dummy_row, crate::proofs::CallsOneRows::explicit_shape_differs_row, crate::proofs::CallsOneRows::factorial_row, crate::proofs::CallsOneRows::array_function_and_texts_row, crate::proofs::CallsOneRows::lower_bounds_and_out_row))]
pub fn calls_one_rows()
    ensures two_sections_apart { TwoSectionsApart }
    ensures two_sections_overlap { TwoSectionsOverlap }
    ensures elemental_reference { ElementalReference }
    ensures elemental_reference_faults { ElementalReferenceFaults }
    ensures explicit_shape_dummy { ExplicitShapeDummy }
    ensures explicit_shape_differs { ExplicitShapeDiffers }
    ensures factorial { Factorial }
    ensures array_function_and_texts { ArrayFunctionAndTexts }
    ensures lower_bounds_and_out { LowerBoundsAndOut }
{}
