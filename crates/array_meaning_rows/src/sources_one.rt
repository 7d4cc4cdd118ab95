//! Small whole sources. The sources stand in `specs/SourcesOne.antt`.

ghost use Rattle.array_meaning_rows.specs.SourcesOne.{TextsAndTruth, StepsOfFour, SectionPastTheEnd, SectionTooLong};
ghost use Rattle.array_meaning_rows.specs.SourcesOne.{SectionWithoutStride, WhereInWhere, ForallReverses, ForallInverts};
ghost use Rattle.array_meaning_rows.specs.SourcesOne.{MatrixAndVector};

#[tactic(auto, using(crate::proofs::SourcesOneRows::texts_and_truth_row, crate::proofs::SourcesOneRows::steps_of_four_row, crate::proofs::SourcesOneRows::section_past_the_end_row, crate::proofs::SourcesOneRows::section_too_long_row, crate::proofs::SourcesOneRows::section_without_stride_row, crate::proofs::SourcesOneRows::where_in_where_row, crate::proofs::SourcesOneRows::forall_reverses_row, crate::proofs::SourcesOneRows::forall_inverts_row, crate::proofs::SourcesOneRows::matrix_and_vector_row))]
pub fn sources_one_rows()
    ensures texts_and_truth { TextsAndTruth }
    ensures steps_of_four { StepsOfFour }
    ensures section_past_the_end { SectionPastTheEnd }
    ensures section_too_long { SectionTooLong }
    ensures section_without_stride { SectionWithoutStride }
    ensures where_in_where { WhereInWhere }
    ensures forall_reverses { ForallReverses }
    ensures forall_inverts { ForallInverts }
    ensures matrix_and_vector { MatrixAndVector }
{}
