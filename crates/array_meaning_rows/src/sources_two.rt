//! Small whole sources. The sources stand in `specs/SourcesTwo.antt`.

ghost use Rattle.array_meaning_rows.specs.SourcesTwo.{PackedAndPadded, NotPadded, BackwardsThroughTwoCalls};
ghost use Rattle.array_meaning_rows.specs.SourcesTwo.{ApartWhereNoneIsModified, StopInAProcedure, ReturnInALoop, TwoCommas};
ghost use Rattle.array_meaning_rows.specs.SourcesTwo.{CarriageReturns};

#[tactic(auto, using(crate::proofs::SourcesTwoRows::packed_and_padded_row, crate::proofs::SourcesTwoRows::not_padded_row, crate::proofs::SourcesTwoRows::backwards_through_two_calls_row, crate::proofs::SourcesTwoRows::apart_where_none_is_modified_row, crate::proofs::SourcesTwoRows::stop_in_a_procedure_row, crate::proofs::SourcesTwoRows::return_in_a_loop_row, crate::proofs::SourcesTwoRows::two_commas_row, crate::proofs::SourcesTwoRows::carriage_returns_row))]
pub fn sources_two_rows()
    ensures packed_and_padded { PackedAndPadded }
    ensures not_padded { NotPadded }
    ensures backwards_through_two_calls { BackwardsThroughTwoCalls }
    ensures apart_where_none_is_modified { ApartWhereNoneIsModified }
    ensures stop_in_a_procedure { StopInAProcedure }
    ensures return_in_a_loop { ReturnInALoop }
    ensures two_commas { TwoCommas }
    ensures carriage_returns { CarriageReturns }
{}
