//! The words of a command line, as a command: `build FILE`, or `run FILE` with or without `--turns N`. Which options,
//! positionals and ways of writing them there are stands in `specs/CommandLine.antt`, as a command of `clap`; what words are
//! then asked for, in `specs/Commands.antt`.
#![tactic(auto)]

mod laws;
mod line;
mod words;

pub use laws::usual_words;
pub use words::{Command, command_of};
