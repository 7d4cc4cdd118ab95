//! What commands come to.
ghost use Rattle.std.specs.Prelude.{◌≡◌};
ghost use Rattle.f95a_core.specs.Status.{code_of};

use a95_base::{FaultKind, Line, Rule};
use loop_tree::StuckState;

/// What a command came to.
#[derive(Clone, Copy, Debug, PartialEq, Eq)]
pub enum Status {
    /// The command did its work to the end.
    Done,
    /// The source breaks a rule: the least by phase, line and number.
    Refused { phase: u8, line: Line, rule: Rule },
    /// The words are no command.
    Usage,
    /// The program ended with a fault.
    Fault { kind: FaultKind, line: Line },
    /// The loaded bytes are no LoopC text: the first line that can't stand there.
    TextRefused { line: Line },
    /// The program has no next step.
    Stuck { why: StuckState },
    /// A turn more would have begun.
    TurnLimit,
    /// The input has more than 2^24 bytes.
    InputTooLong,
    /// A file or the input wasn't read.
    ReadFault,
    /// The output or a note wasn't written.
    WriteFault,
    /// An allocation was refused.
    Memory,
}

/// The exit status of the program, from 0 to 10.
pub fn code(status: &Status) -> u8
    ensures { result ≡ code_of status.now }
{
    match status {
        Status::Done => 0,
        Status::Refused { .. } => 1,
        Status::Usage => 2,
        Status::Fault { .. } => 3,
        Status::TextRefused { .. } => 4,
        Status::Stuck { .. } => 5,
        Status::TurnLimit => 6,
        Status::InputTooLong => 7,
        Status::ReadFault => 8,
        Status::WriteFault => 9,
        Status::Memory => 10,
    }
}
