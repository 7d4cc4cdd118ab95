//! Bounds of arrays without elements, choices, shifts, copies, and new shapes. The sources stand in `specs/IntrinsicsFour.antt`.

ghost use Rattle.array_meaning_rows.specs.IntrinsicsFour.{BoundsOfNoElements, MergeOfShapes, ShiftsOfAMatrix, LogicalShifts};
ghost use Rattle.array_meaning_rows.specs.IntrinsicsFour.{CopiesOfCopies, CopiesOfNone, OrderWithPad, PadOfAMatrix, PackAndUnpack};

#[tactic(auto, using(crate::proofs::IntrinsicsFourRows::bounds_of_no_elements_row, crate::proofs::IntrinsicsFourRows::merge_of_shapes_row, crate::proofs::IntrinsicsFourRows::shifts_of_a_matrix_row, crate::proofs::IntrinsicsFourRows::logical_shifts_row, crate::proofs::IntrinsicsFourRows::copies_of_copies_row, crate::proofs::IntrinsicsFourRows::copies_of_none_row, crate::proofs::IntrinsicsFourRows::order_with_pad_row, crate::proofs::IntrinsicsFourRows::pad_of_a_matrix_row, crate::proofs::IntrinsicsFourRows::pack_and_unpack_row))]
pub fn intrinsics_four_rows()
    ensures bounds_of_no_elements { BoundsOfNoElements }
    ensures merge_of_shapes { MergeOfShapes }
    ensures shifts_of_a_matrix { ShiftsOfAMatrix }
    ensures logical_shifts { LogicalShifts }
    ensures copies_of_copies { CopiesOfCopies }
    ensures copies_of_none { CopiesOfNone }
    ensures order_with_pad { OrderWithPad }
    ensures pad_of_a_matrix { PadOfAMatrix }
    ensures pack_and_unpack { PackAndUnpack }
{}
