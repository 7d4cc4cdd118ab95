//! WHERE and FORALL. The sources stand in `specs/MasksTwo.antt`.

ghost use Rattle.array_meaning_rows.specs.MasksTwo.{NestedWhereWithElsewhere, IndexKeepsToForall, ForallSection};
ghost use Rattle.array_meaning_rows.specs.MasksTwo.{ForallStridesInOrder};

#[tactic(auto, using(crate::proofs::MasksTwoRows::nested_where_with_elsewhere_row, crate::proofs::MasksTwoRows::index_keeps_to_forall_row, crate::proofs::MasksTwoRows::forall_section_row, crate::proofs::MasksTwoRows::forall_strides_in_order_row))]
pub fn masks_two_rows()
    ensures nested_where_with_elsewhere { NestedWhereWithElsewhere }
    ensures index_keeps_to_forall { IndexKeepsToForall }
    ensures forall_section { ForallSection }
    ensures forall_strides_in_order { ForallStridesInOrder }
{}
