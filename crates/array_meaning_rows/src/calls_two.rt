//! Subroutines and functions. The sources stand in `specs/CallsTwo.antt`.

ghost use Rattle.array_meaning_rows.specs.CallsTwo.{BracketsPassAValue, Blinker, OneScalarTwice, VectorSubscriptIsAValue};
ghost use Rattle.array_meaning_rows.specs.CallsTwo.{OutStartsWithTheActual, LengthDiffers, LocalsBeginAnew, EachElementIsACall};
ghost use Rattle.array_meaning_rows.specs.CallsTwo.{KeywordsAndTextResult};

#[tactic(auto, using(crate::proofs::CallsTwoRows::brackets_pass_a_value_row, crate::proofs::CallsTwoRows::blinker_row, crate::proofs::CallsTwoRows::one_scalar_twice_row, crate::proofs::CallsTwoRows::vector_subscript_is_a_value_row, crate::proofs::CallsTwoRows::out_starts_with_the_actual_row, crate::proofs::CallsTwoRows::length_differs_row, crate::proofs::CallsTwoRows::locals_begin_anew_row, crate::proofs::CallsTwoRows::each_element_is_a_call_row, crate::proofs::CallsTwoRows::keywords_and_text_result_row))]
pub fn calls_two_rows()
    ensures brackets_pass_a_value { BracketsPassAValue }
    ensures blinker { Blinker }
    ensures one_scalar_twice { OneScalarTwice }
    ensures vector_subscript_is_a_value { VectorSubscriptIsAValue }
    ensures out_starts_with_the_actual { OutStartsWithTheActual }
    ensures length_differs { LengthDiffers }
    ensures locals_begin_anew { LocalsBeginAnew }
    ensures each_element_is_a_call { EachElementIsACall }
    ensures keywords_and_text_result { KeywordsAndTextResult }
{}
