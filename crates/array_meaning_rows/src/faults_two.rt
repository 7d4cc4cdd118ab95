//! Faults, and what comes before what. The sources stand in `specs/FaultsTwo.antt`.

ghost use Rattle.array_meaning_rows.specs.FaultsTwo.{ForallStoresTwice, TooLarge, NotAllocated, DeallocatedTwice, AllocatedAlready};
ghost use Rattle.array_meaning_rows.specs.FaultsTwo.{NoCharacter, VectorTooShort, NoOrder, TooFewElements};

#[tactic(auto, using(crate::proofs::FaultsTwoRows::forall_stores_twice_row, crate::proofs::FaultsTwoRows::too_large_row, crate::proofs::FaultsTwoRows::not_allocated_row, crate::proofs::FaultsTwoRows::deallocated_twice_row, crate::proofs::FaultsTwoRows::allocated_already_row, crate::proofs::FaultsTwoRows::no_character_row, crate::proofs::FaultsTwoRows::vector_too_short_row, crate::proofs::FaultsTwoRows::no_order_row, crate::proofs::FaultsTwoRows::too_few_elements_row))]
pub fn faults_two_rows()
    ensures forall_stores_twice { ForallStoresTwice }
    ensures too_large { TooLarge }
    ensures not_allocated { NotAllocated }
    ensures deallocated_twice { DeallocatedTwice }
    ensures allocated_already { AllocatedAlready }
    ensures no_character { NoCharacter }
    ensures vector_too_short { VectorTooShort }
    ensures no_order { NoOrder }
    ensures too_few_elements { TooFewElements }
{}
