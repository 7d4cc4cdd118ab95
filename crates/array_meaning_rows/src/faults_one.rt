//! Faults, and what comes before what. The sources stand in `specs/FaultsOne.antt`.

ghost use Rattle.array_meaning_rows.specs.FaultsOne.{ZeroDivisor, ZeroRemainder, ZeroToNegativePower, SubscriptOutOfBounds};
ghost use Rattle.array_meaning_rows.specs.FaultsOne.{SubstringOutOfBounds, ShapesDiffer, StrideOfZero, DoStepOfZero};
ghost use Rattle.array_meaning_rows.specs.FaultsOne.{PlaceStoredTwice};

#[tactic(auto, using(crate::proofs::FaultsOneRows::zero_divisor_row, crate::proofs::FaultsOneRows::zero_remainder_row, crate::proofs::FaultsOneRows::zero_to_negative_power_row, crate::proofs::FaultsOneRows::subscript_out_of_bounds_row, crate::proofs::FaultsOneRows::substring_out_of_bounds_row, crate::proofs::FaultsOneRows::shapes_differ_row, crate::proofs::FaultsOneRows::stride_of_zero_row, crate::proofs::FaultsOneRows::do_step_of_zero_row, crate::proofs::FaultsOneRows::place_stored_twice_row))]
pub fn faults_one_rows()
    ensures zero_divisor { ZeroDivisor }
    ensures zero_remainder { ZeroRemainder }
    ensures zero_to_negative_power { ZeroToNegativePower }
    ensures subscript_out_of_bounds { SubscriptOutOfBounds }
    ensures substring_out_of_bounds { SubstringOutOfBounds }
    ensures shapes_differ { ShapesDiffer }
    ensures stride_of_zero { StrideOfZero }
    ensures do_step_of_zero { DoStepOfZero }
    ensures place_stored_twice { PlaceStoredTwice }
{}
