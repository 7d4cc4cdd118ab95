//! The depth of calls. The sources stand in `specs/Depth.antt`.

ghost use Rattle.array_meaning_rows.specs.Depth.{CallsTooDeep, CallsTooDeepBeforeATurn, TurnsRunOutBeforeDepth, OverlapBeforeDepth};

#[tactic(auto, using(crate::proofs::DepthRows::calls_too_deep_row, crate::proofs::DepthRows::calls_too_deep_before_a_turn_row, crate::proofs::DepthRows::turns_run_out_before_depth_row, crate::proofs::DepthRows::overlap_before_depth_row))]
pub fn depth_rows()
    ensures calls_too_deep { CallsTooDeep }
    ensures calls_too_deep_before_a_turn { CallsTooDeepBeforeATurn }
    ensures turns_run_out_before_depth { TurnsRunOutBeforeDepth }
    ensures overlap_before_depth { OverlapBeforeDepth }
{}
