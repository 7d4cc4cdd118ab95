//! Assignments of whole arrays, sections, texts and scalars, and initial values. The sources stand in `specs/AssignmentsOne.antt`.

ghost use Rattle.array_meaning_rows.specs.AssignmentsOne.{WholeArrays, BothNeighbours, ReversedOntoItself, BlockMoved};
ghost use Rattle.array_meaning_rows.specs.AssignmentsOne.{FirstElementReadOnce, NoPlacesNoBounds, VectorSubscript};
ghost use Rattle.array_meaning_rows.specs.AssignmentsOne.{BoundsAndNegativeStride, TextsFit};

#[tactic(auto, using(crate::proofs::AssignmentsOneRows::whole_arrays_row, crate::proofs::AssignmentsOneRows::both_neighbours_row, crate::proofs::AssignmentsOneRows::reversed_onto_itself_row, crate::proofs::AssignmentsOneRows::block_moved_row, crate::proofs::AssignmentsOneRows::first_element_read_once_row, crate::proofs::AssignmentsOneRows::no_places_no_bounds_row, crate::proofs::AssignmentsOneRows::vector_subscript_row, crate::proofs::AssignmentsOneRows::bounds_and_negative_stride_row, crate::proofs::AssignmentsOneRows::texts_fit_row))]
pub fn assignments_one_rows()
    ensures whole_arrays { WholeArrays }
    ensures both_neighbours { BothNeighbours }
    ensures reversed_onto_itself { ReversedOntoItself }
    ensures block_moved { BlockMoved }
    ensures first_element_read_once { FirstElementReadOnce }
    ensures no_places_no_bounds { NoPlacesNoBounds }
    ensures vector_subscript { VectorSubscript }
    ensures bounds_and_negative_stride { BoundsAndNegativeStride }
    ensures texts_fit { TextsFit }
{}
