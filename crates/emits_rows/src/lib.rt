//! Small nest units that have lines, each with the LoopC text that becomes of it, and some that are sound, so that the laws of what
//! is emitted speak of something. The rows stand in `specs/Rows.antt`; the functions do nothing, and their contracts say them.
#![tactic(auto)]

mod rows;

pub use rows::{emits_rows, sound_rows};
