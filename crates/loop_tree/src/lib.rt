//! LoopC, the language of scalar loops that the compiler writes and the machine runs. This crate owns its program: the
//! tree that is built and read, and the flat list of lines that has one entry for each line of the text. The text
//! stands in `specs/Text.antt`, what is a program in `specs/Program.antt`, one step of the machine in
//! `specs/Machine.antt`, and whole runs in `specs/Run.antt`.
#![tactic(auto)]

mod atom;
mod code;
mod copies;
mod fits;
mod flatten;
mod laws;
mod program;
mod row;
mod row_text;
mod stuck;
mod text;
mod tree;

pub use atom::{Argument, Atom, Letter, Operator, Reference, TextAtom};
pub use code::Code;
pub use laws::{
    end_stays, one_outcome, output_grows, some_outcome, statements_pass, turns_add, ways,
};
pub use program::LoopProgram;
pub use row::{BlockRow, ControlRow, IntValue, RecordRow, Row, TextValue};
pub use stuck::StuckState;
pub use tree::{CodeLine, Function, Stmt};
