//! Small sources whose units are settled and lowered, each with what its nests come to within its turns, and some that are not. The
//! sources stand in `specs/Rows.antt`.

ghost use Rattle.control_lower.specs.Rows.{InitialValueWraps, TextPadded, FunctionsAndAFault, OneBranchOfThree};
ghost use Rattle.control_lower.specs.Rows.{LaterConditionsUnasked, FirstCaseThatFits, CaseOfATruth, CountIsFixed};
ghost use Rattle.control_lower.specs.Rows.{CountIsFixedWaits, StepOfZero, OuterLoopLeft, WhileAndStop};
ghost use Rattle.control_lower.specs.Rows.{WhileAndStopWaits, ArrayNotLowered, TruthNotSettled, NoLoopLeft};

/// Values, branches and loops; what is not lowered so far, and what no reader gives.
#[tactic(auto, using(crate::proofs::RowsHold::initial_value_wraps_row, crate::proofs::RowsHold::text_padded_row, crate::proofs::RowsHold::functions_and_a_fault_row, crate::proofs::RowsHold::one_branch_of_three_row, crate::proofs::RowsHold::later_conditions_unasked_row, crate::proofs::RowsHold::first_case_that_fits_row, crate::proofs::RowsHold::case_of_a_truth_row, crate::proofs::RowsHold::count_is_fixed_row, crate::proofs::RowsHold::count_is_fixed_waits_row, crate::proofs::RowsHold::step_of_zero_row, crate::proofs::RowsHold::outer_loop_left_row, crate::proofs::RowsHold::while_and_stop_row, crate::proofs::RowsHold::while_and_stop_waits_row, crate::proofs::RowsHold::array_not_lowered_row, crate::proofs::RowsHold::truth_not_settled_row, crate::proofs::RowsHold::no_loop_left_row))]
pub fn lowered_rows()
    ensures initial_value_wraps { InitialValueWraps }
    ensures text_padded { TextPadded }
    ensures functions_and_a_fault { FunctionsAndAFault }
    ensures one_branch_of_three { OneBranchOfThree }
    ensures later_conditions_unasked { LaterConditionsUnasked }
    ensures first_case_that_fits { FirstCaseThatFits }
    ensures case_of_a_truth { CaseOfATruth }
    ensures count_is_fixed { CountIsFixed }
    ensures count_is_fixed_waits { CountIsFixedWaits }
    ensures step_of_zero { StepOfZero }
    ensures outer_loop_left { OuterLoopLeft }
    ensures while_and_stop { WhileAndStop }
    ensures while_and_stop_waits { WhileAndStopWaits }
    ensures array_not_lowered { ArrayNotLowered }
    ensures truth_not_settled { TruthNotSettled }
    ensures no_loop_left { NoLoopLeft }
{}
