//! The state of a running LoopC program, the tables that say where its braces close, and the rows that begin no turn.
//! `specs/Shown.antt` says what state of the definition the machine's own stands for, and `specs/Rows.antt` what a row
//! comes to.
#![tactic(auto)]

mod arguments;
mod places;
mod routine;
mod rows;
mod state;
mod values;

pub use arguments::{accepts, all_usable, entered};
pub use places::{begins_other, exit, is_straight, line_at, lines_at, next, outer, past};
pub use routine::Routine;
pub use rows::{change_block, gather, set_int, set_text};
pub use state::{Active, Core, OpenBrace};
pub use values::atom;
