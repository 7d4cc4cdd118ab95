//! Intrinsic functions and constructors. The sources stand in `specs/IntrinsicsThree.antt`.

ghost use Rattle.array_meaning_rows.specs.IntrinsicsThree.{ShapeIsNegative, LogicalArrays, EmptyMatrices};

#[tactic(auto, using(crate::proofs::IntrinsicsThreeRows::shape_is_negative_row, crate::proofs::IntrinsicsThreeRows::logical_arrays_row, crate::proofs::IntrinsicsThreeRows::empty_matrices_row))]
pub fn intrinsics_three_rows()
    ensures shape_is_negative { ShapeIsNegative }
    ensures logical_arrays { LogicalArrays }
    ensures empty_matrices { EmptyMatrices }
{}
