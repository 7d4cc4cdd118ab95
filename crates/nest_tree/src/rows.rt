//! Small units, each with what it comes to on its input within its turns, and how many entries it counts. The units stand in
//! `specs/StoresRows.antt`, `ControlRows.antt` and `CallsRows.antt`.

ghost use Rattle.nest_tree.specs.StoresRows.{WholeRow, ShiftedBackwards, ShiftedForwards, ShiftedThroughATemporary};
ghost use Rattle.nest_tree.specs.StoresRows.{TwoPiecesOfOneNest, OutsideItsArray, NothingWhereFalse, FaultAtItsLine};
ghost use Rattle.nest_tree.specs.StoresRows.{NoElementsNoEntries, ColumnsFromTheLast, SubscriptsFromAList, FreedIsNotRead};
ghost use Rattle.nest_tree.specs.StoresRows.{GrownAndGivenAShape, TextsPaddedAndKept, ExactBeyond64Bits};
ghost use Rattle.nest_tree.specs.ControlRows.{StepsOfFour, TurnsRunOut, OuterLoopLeft, OuterTurnEnded, Branches, TwoIntegersRead};
ghost use Rattle.nest_tree.specs.ControlRows.{InputAtItsEnd, InputWithoutInteger, RecordDroppedByAFault};
ghost use Rattle.nest_tree.specs.FitsRows.{ElementalReferenceFits, NoLoopLeft, PassedTwice, StepsOfFourFit, ValueStored};
ghost use Rattle.nest_tree.specs.FitsRows.{WholeRowFits, WrongSort};
ghost use Rattle.nest_tree.specs.CallsRows.{ModifiedInPlace, CallWithoutATurn, ElementalReference, ElementalReferenceWaits};
ghost use Rattle.nest_tree.specs.CallsRows.{ResultOfAnArray, StopInAProcedure, NoSuchProcedure, DummyWithoutActual};

/// Stores, places, masks and blocks.
#[tactic(auto, using(crate::proofs::StoresRows::whole_row_row, crate::proofs::StoresRows::shifted_backwards_row, crate::proofs::StoresRows::shifted_forwards_row, crate::proofs::StoresRows::shifted_through_a_temporary_row, crate::proofs::StoresRows::two_pieces_of_one_nest_row, crate::proofs::StoresRows::outside_its_array_row, crate::proofs::StoresRows::nothing_where_false_row, crate::proofs::StoresRows::fault_at_its_line_row, crate::proofs::StoresRows::no_elements_no_entries_row, crate::proofs::StoresRows::columns_from_the_last_row, crate::proofs::StoresRows::subscripts_from_a_list_row, crate::proofs::StoresRows::freed_is_not_read_row, crate::proofs::StoresRows::grown_and_given_a_shape_row, crate::proofs::StoresRows::texts_padded_and_kept_row, crate::proofs::StoresRows::exact_beyond_64_bits_row))]
pub fn stores_rows()
    ensures whole_row { WholeRow }
    ensures shifted_backwards { ShiftedBackwards }
    ensures shifted_forwards { ShiftedForwards }
    ensures shifted_through_a_temporary { ShiftedThroughATemporary }
    ensures two_pieces_of_one_nest { TwoPiecesOfOneNest }
    ensures outside_its_array { OutsideItsArray }
    ensures nothing_where_false { NothingWhereFalse }
    ensures fault_at_its_line { FaultAtItsLine }
    ensures no_elements_no_entries { NoElementsNoEntries }
    ensures columns_from_the_last { ColumnsFromTheLast }
    ensures subscripts_from_a_list { SubscriptsFromAList }
    ensures freed_is_not_read { FreedIsNotRead }
    ensures grown_and_given_a_shape { GrownAndGivenAShape }
    ensures texts_padded_and_kept { TextsPaddedAndKept }
    ensures exact_beyond_64_bits { ExactBeyond64Bits }
{}

/// Loops that ask a condition, branches, input and output.
#[tactic(auto, using(crate::proofs::ControlRows::steps_of_four_row, crate::proofs::ControlRows::turns_run_out_row, crate::proofs::ControlRows::outer_loop_left_row, crate::proofs::ControlRows::outer_turn_ended_row, crate::proofs::ControlRows::branches_row, crate::proofs::ControlRows::two_integers_read_row, crate::proofs::ControlRows::input_at_its_end_row, crate::proofs::ControlRows::input_without_integer_row, crate::proofs::ControlRows::record_dropped_by_a_fault_row))]
pub fn control_rows()
    ensures steps_of_four { StepsOfFour }
    ensures turns_run_out { TurnsRunOut }
    ensures outer_loop_left { OuterLoopLeft }
    ensures outer_turn_ended { OuterTurnEnded }
    ensures branches { Branches }
    ensures two_integers_read { TwoIntegersRead }
    ensures input_at_its_end { InputAtItsEnd }
    ensures input_without_integer { InputWithoutInteger }
    ensures record_dropped_by_a_fault { RecordDroppedByAFault }
{}

/// Calls and results.
#[tactic(auto, using(crate::proofs::CallsRows::modified_in_place_row, crate::proofs::CallsRows::call_without_a_turn_row, crate::proofs::CallsRows::elemental_reference_row, crate::proofs::CallsRows::elemental_reference_waits_row, crate::proofs::CallsRows::result_of_an_array_row, crate::proofs::CallsRows::stop_in_a_procedure_row, crate::proofs::CallsRows::no_such_procedure_row, crate::proofs::CallsRows::dummy_without_actual_row))]
pub fn calls_rows()
    ensures modified_in_place { ModifiedInPlace }
    ensures call_without_a_turn { CallWithoutATurn }
    ensures elemental_reference { ElementalReference }
    ensures elemental_reference_waits { ElementalReferenceWaits }
    ensures result_of_an_array { ResultOfAnArray }
    ensures stop_in_a_procedure { StopInAProcedure }
    ensures no_such_procedure { NoSuchProcedure }
    ensures dummy_without_actual { DummyWithoutActual }
{}

/// Units whose text fits, and some whose text doesn't.
#[tactic(auto, using(crate::proofs::FitsRows::whole_row_fits, crate::proofs::FitsRows::steps_of_four_fit, crate::proofs::FitsRows::elemental_reference_fits, crate::proofs::FitsRows::value_stored_row, crate::proofs::FitsRows::no_loop_left_row, crate::proofs::FitsRows::wrong_sort_row, crate::proofs::FitsRows::passed_twice_row))]
pub fn fits_rows()
    ensures whole_row { WholeRowFits }
    ensures steps_of_four { StepsOfFourFit }
    ensures elemental_reference { ElementalReferenceFits }
    ensures value_stored { ValueStored }
    ensures no_loop_left { NoLoopLeft }
    ensures wrong_sort { WrongSort }
    ensures passed_twice { PassedTwice }
{}
