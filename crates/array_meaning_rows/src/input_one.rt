//! READ and PRINT. The sources stand in `specs/InputOne.antt`.

ghost use Rattle.array_meaning_rows.specs.InputOne.{ReadAndPrint, ItemByItem, NothingLeft, NoInteger, CommaFirst, RecordOfNothing};
ghost use Rattle.array_meaning_rows.specs.InputOne.{EmptyRecord, ReadIntoVectorTwice, NumberTooGreat};

#[tactic(auto, using(crate::proofs::InputOneRows::read_and_print_row, crate::proofs::InputOneRows::item_by_item_row, crate::proofs::InputOneRows::nothing_left_row, crate::proofs::InputOneRows::no_integer_row, crate::proofs::InputOneRows::comma_first_row, crate::proofs::InputOneRows::record_of_nothing_row, crate::proofs::InputOneRows::empty_record_row, crate::proofs::InputOneRows::read_into_vector_twice_row, crate::proofs::InputOneRows::number_too_great_row))]
pub fn input_one_rows()
    ensures read_and_print { ReadAndPrint }
    ensures item_by_item { ItemByItem }
    ensures nothing_left { NothingLeft }
    ensures no_integer { NoInteger }
    ensures comma_first { CommaFirst }
    ensures record_of_nothing { RecordOfNothing }
    ensures empty_record { EmptyRecord }
    ensures read_into_vector_twice { ReadIntoVectorTwice }
    ensures number_too_great { NumberTooGreat }
{}
