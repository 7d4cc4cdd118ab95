//! Intrinsic functions and constructors. The sources stand in `specs/IntrinsicsOne.antt`.

ghost use Rattle.array_meaning_rows.specs.IntrinsicsOne.{IntegerFunctions, Bits, Merged, TextFunctions, Inquiries, Reductions};
ghost use Rattle.array_meaning_rows.specs.IntrinsicsOne.{PlacesOfExtremes, Products, SpreadPackUnpack};

#[tactic(auto, using(crate::proofs::IntrinsicsOneRows::integer_functions_row, crate::proofs::IntrinsicsOneRows::bits_row, crate::proofs::IntrinsicsOneRows::merged_row, crate::proofs::IntrinsicsOneRows::text_functions_row, crate::proofs::IntrinsicsOneRows::inquiries_row, crate::proofs::IntrinsicsOneRows::reductions_row, crate::proofs::IntrinsicsOneRows::places_of_extremes_row, crate::proofs::IntrinsicsOneRows::products_row, crate::proofs::IntrinsicsOneRows::spread_pack_unpack_row))]
pub fn intrinsics_one_rows()
    ensures integer_functions { IntegerFunctions }
    ensures bits { Bits }
    ensures merged { Merged }
    ensures text_functions { TextFunctions }
    ensures inquiries { Inquiries }
    ensures reductions { Reductions }
    ensures places_of_extremes { PlacesOfExtremes }
    ensures products { Products }
    ensures spread_pack_unpack { SpreadPackUnpack }
{}
