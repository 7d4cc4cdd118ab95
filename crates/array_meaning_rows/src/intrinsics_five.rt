//! Reductions with ties, with masks that are nowhere true, and of no elements; texts of unlike lengths. The sources stand in
//! `specs/IntrinsicsFive.antt`.

ghost use Rattle.array_meaning_rows.specs.IntrinsicsFive.{PlacesWithTies, PlacesWhereNothingCounts, PlaceCountsFromOne};
ghost use Rattle.array_meaning_rows.specs.IntrinsicsFive.{SumsAlongNothing, MasksAlongADimension, ProductsOfNothing};
ghost use Rattle.array_meaning_rows.specs.IntrinsicsFive.{NestedImpliedDos, PaddedComparison, TextsCutAndPadded};

#[tactic(auto, using(crate::proofs::IntrinsicsFiveRows::places_with_ties_row, crate::proofs::IntrinsicsFiveRows::places_where_nothing_counts_row, crate::proofs::IntrinsicsFiveRows::place_counts_from_one_row, crate::proofs::IntrinsicsFiveRows::sums_along_nothing_row, crate::proofs::IntrinsicsFiveRows::masks_along_a_dimension_row, crate::proofs::IntrinsicsFiveRows::products_of_nothing_row, crate::proofs::IntrinsicsFiveRows::nested_implied_dos_row, crate::proofs::IntrinsicsFiveRows::padded_comparison_row, crate::proofs::IntrinsicsFiveRows::texts_cut_and_padded_row))]
pub fn intrinsics_five_rows()
    ensures places_with_ties { PlacesWithTies }
    ensures places_where_nothing_counts { PlacesWhereNothingCounts }
    ensures place_counts_from_one { PlaceCountsFromOne }
    ensures sums_along_nothing { SumsAlongNothing }
    ensures masks_along_a_dimension { MasksAlongADimension }
    ensures products_of_nothing { ProductsOfNothing }
    ensures nested_implied_dos { NestedImpliedDos }
    ensures padded_comparison { PaddedComparison }
    ensures texts_cut_and_padded { TextsCutAndPadded }
{}
