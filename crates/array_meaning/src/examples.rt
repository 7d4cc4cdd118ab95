//! Small sources that show what acts when. The sources stand in `specs/Examples.antt`.

ghost use Rattle.array_meaning.specs.Examples.{ShiftedSection, SumWithoutMask, PendingPlacesAlone, ForallBeforeAnyStore};
ghost use Rattle.array_meaning.specs.Examples.{TurnsRunOut, Shifts, ShapeBeforeManyOne, ManyOneBeforeElements, ScalarMaskByItself};
ghost use Rattle.array_meaning.specs.Examples.{OrderOfThree, ReadsElsewhere};

#[tactic(auto, using(crate::proofs::ExamplesRows::shifted_section_row, crate::proofs::ExamplesRows::sum_without_mask_row, crate::proofs::ExamplesRows::pending_places_alone_row, crate::proofs::ExamplesRows::forall_before_any_store_row, crate::proofs::ExamplesRows::turns_run_out_row, crate::proofs::ExamplesRows::shifts_row, crate::proofs::ExamplesRows::shape_before_many_one_row, crate::proofs::ExamplesRows::many_one_before_elements_row, crate::proofs::ExamplesRows::scalar_mask_by_itself_row, crate::proofs::ExamplesRows::order_of_three_row))]
pub fn examples_rows()
    ensures shifted_section { ShiftedSection }
    ensures sum_without_mask { SumWithoutMask }
    ensures pending_places_alone { PendingPlacesAlone }
    ensures forall_before_any_store { ForallBeforeAnyStore }
    ensures turns_run_out { TurnsRunOut }
    ensures shifts { Shifts }
    ensures shape_before_many_one { ShapeBeforeManyOne }
    ensures many_one_before_elements { ManyOneBeforeElements }
    ensures scalar_mask_by_itself { ScalarMaskByItself }
    ensures order_of_three { OrderOfThree }
    ensures reads_elsewhere { ReadsElsewhere }
{}
