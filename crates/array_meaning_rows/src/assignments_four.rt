//! Sections without elements, with negative strides, and by subscripts that stand twice on the right. The sources stand in
//! `specs/AssignmentsFour.antt`.

ghost use Rattle.array_meaning_rows.specs.AssignmentsFour.{EmptySections, BackwardsOntoItself, StridePastTheEnd, RepeatsOnTheRight};
ghost use Rattle.array_meaning_rows.specs.AssignmentsFour.{VectorOfNoSubscripts};

#[tactic(auto, using(crate::proofs::AssignmentsFourRows::empty_sections_row, crate::proofs::AssignmentsFourRows::backwards_onto_itself_row, crate::proofs::AssignmentsFourRows::stride_past_the_end_row, crate::proofs::AssignmentsFourRows::repeats_on_the_right_row, crate::proofs::AssignmentsFourRows::vector_of_no_subscripts_row))]
pub fn assignments_four_rows()
    ensures empty_sections { EmptySections }
    ensures backwards_onto_itself { BackwardsOntoItself }
    ensures stride_past_the_end { StridePastTheEnd }
    ensures repeats_on_the_right { RepeatsOnTheRight }
    ensures vector_of_no_subscripts { VectorOfNoSubscripts }
{}
