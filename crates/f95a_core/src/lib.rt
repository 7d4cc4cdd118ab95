//! The compiler as one call: `f95a` takes the words of a command line, the files, the input, the output and the notes,
//! and answers a status. Its clauses carry the theorem of the program: what `build` writes follows its source
//! (`specs/Building.antt`), what `run` does is the machine's run (`specs/Running.antt`), and each status has its cause.
#![tactic(auto)]

mod building;
mod command;
mod compiling;
mod intake;
mod law;
mod lower;
mod round_trip;
mod running;
mod source;
mod status;

pub use command::f95a;
pub use compiling::{CompileRefusal, compile};
pub use law::headline;
pub use round_trip::build_and_run;
pub use status::{Status, code};
