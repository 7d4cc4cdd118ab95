//! Reads LoopC texts. Each program has exactly one text, which `loop_tree`'s `specs/Text.antt` gives; `read` finds the
//! program of a text, or the first line with which bytes are none (`specs/Refused.antt`). `print` of `loop_writer` gives
//! the text of a program, and stands here too, so that both ways are found in one place.
//!
//! A line is read by a guess that looks at a few of its bytes, and is right where the text of the guess is the line:
//! `specs/Guess.antt` and `specs/Reader.antt` say how, and no public clause cites them.
#![tactic(auto)]

mod atoms;
mod guess;
mod level;
mod reader;
mod reading;

pub use loop_writer::print;
pub use reading::{NoText, one_line, one_program, read};
