//! DO and SELECT at their edges, dummies with bounds of their own, and faults behind what was written. The sources stand in
//! `specs/ControlThree.antt`.

ghost use Rattle.array_meaning_rows.specs.ControlThree.{NegativeDo, SelectByRanges, SelectByTexts, SelectWithoutACase};
ghost use Rattle.array_meaning_rows.specs.ControlThree.{ExitOfTheOuterLoop, StepOfZero, StrideOfZeroInNothing};
ghost use Rattle.array_meaning_rows.specs.ControlThree.{ElementOfAShrunkSection, ShapesDifferBeforeStores, ElementalOverASection};
ghost use Rattle.array_meaning_rows.specs.ControlThree.{LowerBoundsOfDummies};

#[tactic(auto, using(crate::proofs::ControlThreeRows::negative_do_row, crate::proofs::ControlThreeRows::select_by_ranges_row, crate::proofs::ControlThreeRows::select_by_texts_row, crate::proofs::ControlThreeRows::select_without_a_case_row, crate::proofs::ControlThreeRows::exit_of_the_outer_loop_row, crate::proofs::ControlThreeRows::step_of_zero_row, crate::proofs::ControlThreeRows::stride_of_zero_in_nothing_row, crate::proofs::ControlThreeRows::element_of_a_shrunk_section_row, crate::proofs::ControlThreeRows::shapes_differ_before_stores_row, crate::proofs::ControlThreeRows::elemental_over_a_section_row, crate::proofs::ControlThreeRows::lower_bounds_of_dummies_row))]
pub fn control_three_rows()
    ensures negative_do { NegativeDo }
    ensures select_by_ranges { SelectByRanges }
    ensures select_by_texts { SelectByTexts }
    ensures select_without_a_case { SelectWithoutACase }
    ensures exit_of_the_outer_loop { ExitOfTheOuterLoop }
    ensures step_of_zero { StepOfZero }
    ensures stride_of_zero_in_nothing { StrideOfZeroInNothing }
    ensures element_of_a_shrunk_section { ElementOfAShrunkSection }
    ensures shapes_differ_before_stores { ShapesDifferBeforeStores }
    ensures elemental_over_a_section { ElementalOverASection }
    ensures lower_bounds_of_dummies { LowerBoundsOfDummies }
{}
