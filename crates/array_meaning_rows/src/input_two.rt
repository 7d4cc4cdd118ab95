//! READ and PRINT. The sources stand in `specs/InputTwo.antt`.

ghost use Rattle.array_meaning_rows.specs.InputTwo.{ValuesBeforeTheEnd};

#[tactic(auto, using(crate::proofs::InputTwoRows::values_before_the_end_row))]
pub fn input_two_rows()
    ensures values_before_the_end { ValuesBeforeTheEnd }
{}
