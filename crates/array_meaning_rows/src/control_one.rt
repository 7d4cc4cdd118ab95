//! Choices, loops, turns, allocation, and operators of LOGICAL and CHARACTER. The sources stand in `specs/ControlOne.antt`.

ghost use Rattle.array_meaning_rows.specs.ControlOne.{IfChain, DoCounts, ExitAndCycle, WhileAndEndless, SelectCases, StopEnds};
ghost use Rattle.array_meaning_rows.specs.ControlOne.{TurnsSuffice, WhileMayEndWithoutTurn, EndlessLoopGoesOn};

#[tactic(auto, using(crate::proofs::ControlOneRows::if_chain_row, crate::proofs::ControlOneRows::do_counts_row, crate::proofs::ControlOneRows::exit_and_cycle_row, crate::proofs::ControlOneRows::while_and_endless_row, crate::proofs::ControlOneRows::select_cases_row, crate::proofs::ControlOneRows::stop_ends_row, crate::proofs::ControlOneRows::turns_suffice_row, crate::proofs::ControlOneRows::while_may_end_without_turn_row, crate::proofs::ControlOneRows::endless_loop_goes_on_row))]
pub fn control_one_rows()
    ensures if_chain { IfChain }
    ensures do_counts { DoCounts }
    ensures exit_and_cycle { ExitAndCycle }
    ensures while_and_endless { WhileAndEndless }
    ensures select_cases { SelectCases }
    ensures stop_ends { StopEnds }
    ensures turns_suffice { TurnsSuffice }
    ensures while_may_end_without_turn { WhileMayEndWithoutTurn }
    ensures endless_loop_goes_on { EndlessLoopGoesOn }
{}
