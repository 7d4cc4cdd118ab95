//! Assignments of whole arrays, sections, texts and scalars, and initial values. The sources stand in
//! `specs/AssignmentsThree.antt`.

ghost use Rattle.array_meaning_rows.specs.AssignmentsThree.{TrialOfOne};

#[tactic(auto, using(crate::proofs::AssignmentsThreeRows::trial_of_one_row))]
pub fn assignments_three_rows()
    ensures trial_of_one { TrialOfOne }
{}
