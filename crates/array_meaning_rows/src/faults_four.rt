//! Faults, and what comes before what. The sources stand in `specs/FaultsFour.antt`.

ghost use Rattle.array_meaning_rows.specs.FaultsFour.{AllocatedBeforeSubscripts, FaultInACalledProcedure};

#[tactic(auto, using(crate::proofs::FaultsFourRows::allocated_before_subscripts_row, crate::proofs::FaultsFourRows::fault_in_a_called_procedure_row))]
pub fn faults_four_rows()
    ensures allocated_before_subscripts { AllocatedBeforeSubscripts }
    ensures fault_in_a_called_procedure { FaultInACalledProcedure }
{}
