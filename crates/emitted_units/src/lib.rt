//! Which nest units have lines of LoopC: what `nest_emit/specs/Emits` asks of a unit, decided.
#![tactic(auto)]

mod units;

pub use units::is_emitted;
