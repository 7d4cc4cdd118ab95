//! The rows, as contracts of functions that do nothing.

ghost use Rattle.emits_rows.specs.Rows.{WholeRow, OuterLoopLeft, TwoIntegersRead, TextsPaddedAndKept, WholeRowIsSound};
ghost use Rattle.emits_rows.specs.Rows.{OuterLoopLeftIsSound, TextsPaddedAndKeptAreSound};

/// The text that becomes of each unit.
#[tactic(auto, using(crate::proofs::Computed::whole_row_row, crate::proofs::Computed::outer_loop_left_row, crate::proofs::Computed::two_integers_read_row, crate::proofs::Computed::texts_padded_and_kept_row))]
pub fn emits_rows()
    ensures whole_row { WholeRow }
    ensures outer_loop_left { OuterLoopLeft }
    ensures two_integers_read { TwoIntegersRead }
    ensures texts_padded_and_kept { TextsPaddedAndKept }
{}

/// Units whose text fits and no run of which strays.
#[tactic(auto, using(crate::proofs::Computed::whole_row_sound, crate::proofs::Computed::outer_loop_left_sound, crate::proofs::Computed::texts_padded_and_kept_sound))]
pub fn sound_rows()
    ensures whole_row { WholeRowIsSound }
    ensures outer_loop_left { OuterLoopLeftIsSound }
    ensures texts_padded_and_kept { TextsPaddedAndKeptAreSound }
{}
