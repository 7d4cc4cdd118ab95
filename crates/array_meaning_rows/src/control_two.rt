//! Choices, loops, turns, allocation, and operators of LOGICAL and CHARACTER. The sources stand in `specs/ControlTwo.antt`.

ghost use Rattle.array_meaning_rows.specs.ControlTwo.{AllocateAndFree, LogicalOperators, TextsCompared};
ghost use Rattle.array_meaning_rows.specs.ControlTwo.{VariableWrapsBehindLastTurn, BothOperandsEvaluated, AllocatedTooLargeFirst};
ghost use Rattle.array_meaning_rows.specs.ControlTwo.{InitialValueOfAllocatable, TurnsOfAConstructor, CaseOfNegativeNumbers};

#[tactic(auto, using(crate::proofs::ControlTwoRows::allocate_and_free_row, crate::proofs::ControlTwoRows::logical_operators_row, crate::proofs::ControlTwoRows::texts_compared_row, crate::proofs::ControlTwoRows::variable_wraps_behind_last_turn_row, crate::proofs::ControlTwoRows::both_operands_evaluated_row, crate::proofs::ControlTwoRows::allocated_too_large_first_row, crate::proofs::ControlTwoRows::initial_value_of_allocatable_row, crate::proofs::ControlTwoRows::turns_of_a_constructor_row, crate::proofs::ControlTwoRows::case_of_negative_numbers_row))]
pub fn control_two_rows()
    ensures allocate_and_free { AllocateAndFree }
    ensures logical_operators { LogicalOperators }
    ensures texts_compared { TextsCompared }
    ensures variable_wraps_behind_last_turn { VariableWrapsBehindLastTurn }
    ensures both_operands_evaluated { BothOperandsEvaluated }
    ensures allocated_too_large_first { AllocatedTooLargeFirst }
    ensures initial_value_of_allocatable { InitialValueOfAllocatable }
    ensures turns_of_a_constructor { TurnsOfAConstructor }
    ensures case_of_negative_numbers { CaseOfNegativeNumbers }
{}
