//! What a run came to. `specs/Running.antt` says what each answer tells of the program.
ghost use Rattle.std.specs.Prelude.{◌≡◌};
ghost use Rattle.loop_machine.specs.Running.{left_by, halted};

use a95_base::{FaultKind, Line};
use loop_heap::Halt;
use loop_tree::StuckState;

/// What a run came to.
#[derive(Clone, Copy, Debug, PartialEq, Eq)]
pub enum End {
    /// The program stopped, or its main function ended.
    Ended,
    /// f_fault, with the line that f_at had set in that call, or 0.
    Fault { kind: FaultKind, line: Line },
    /// No step is possible. Where there are several reasons the one of the least number is given.
    Stuck { why: StuckState },
    /// All turns were begun, and one more would begin.
    TurnLimit,
    /// The sink failed.
    WriteFault,
    /// An allocation was refused.
    Memory,
}

/// What a run came to that was halted.
pub fn halted(halt: Halt) -> End
    ensures { result ≡ halted halt }
{
    match halt {
        Halt::Stuck(why) => End::Stuck { why },
        Halt::Memory => End::Memory,
    }
}

/// What a further run answers, where it doesn't go on.
pub fn left_by(end: End) -> Option<End>
    ensures { result ≡ left_by end }
{
    match end {
        End::TurnLimit => None,
        End::Ended => Some(end),
        End::Fault { .. } => Some(end),
        End::Stuck { .. } => Some(end),
        End::WriteFault => Some(end),
        End::Memory => Some(end),
    }
}
