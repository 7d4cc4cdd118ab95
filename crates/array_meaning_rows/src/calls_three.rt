//! Subroutines and functions. The sources stand in `specs/CallsThree.antt`.

ghost use Rattle.array_meaning_rows.specs.CallsThree.{DeclarationTooLarge};

#[tactic(auto, using(crate::proofs::CallsThreeRows::declaration_too_large_row))]
pub fn calls_three_rows()
    ensures declaration_too_large { DeclarationTooLarge }
{}
