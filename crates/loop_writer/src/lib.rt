//! The text of LoopC programs, and the one way in which a program is made. A lowering is a `Producer`: it gives the
//! pieces of its program, one after another, and each is a part of the grammar by its type. `collect` makes the
//! program of them, and `write` the text, with no more held than one piece and 64 KiB. What the text of a program is
//! stands in `loop_tree`'s `specs/Text.antt`, what the program of pieces is in `specs/Pieces.antt`.
#![tactic(auto)]

mod collecting;
mod pieces;
mod printer;
mod writing;

pub use collecting::collect;
pub use pieces::{Piece, Producer};
pub use printer::{print, put_head};
pub use writing::write;
