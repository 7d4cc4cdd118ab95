//! What comes of a line.
ghost use Rattle.std.specs.Prelude.{◌≡◌};

use loop_heap::Halt;
use loop_rows::Core;

/// What came of a line. It has no fields, so that it is passed in a register.
#[derive(Clone, Copy)]
pub enum Move {
    /// The next line follows.
    Quiet,
    /// A turn began.
    Turn,
    /// The pending record is to be written.
    Record,
    /// A turn would begin and none is left, so nothing was done.
    Waits,
    Ended,
    /// The core keeps the kind.
    Fault,
    /// The core keeps what halted the run.
    Halt,
}

/// The run is halted.
pub fn halts(core: &mut Core, halt: Halt) -> Move
    ensures moves { result ≡ Move.Halt }
    ensures core { core.new ≡ record core.old { halt = halt } }
{
    core.halt = halt;
    Move::Halt
}
