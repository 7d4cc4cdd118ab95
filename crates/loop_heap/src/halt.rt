//! Why a built-in or a row has no result. `?` hands it on: a stuck state as it is, and any refused allocation as `Memory`.
ghost use Rattle.std.specs.Prelude.{◌≡◌};
ghost use Rattle.loop_heap.specs.declared.halt.Halt.TheVariants as halt;

use a95_base::Memory;
use loop_tree::StuckState;
use std::alloc::AllocError;

/// What keeps a running program from its next step.
#[derive(Clone, Copy)]
pub enum Halt {
    Stuck(StuckState),
    /// An allocation was refused.
    Memory,
}

impl From<StuckState> for Halt {
    ghost from_gives = { λ why h. h ≡ halt.Stuck why };

    fn from(why: StuckState) -> Halt {
        Halt::Stuck(why)
    }
}

impl From<AllocError> for Halt {
    ghost from_gives = { λ _ h. h ≡ halt.Memory };

    fn from(_error: AllocError) -> Halt {
        Halt::Memory
    }
}

impl From<Memory> for Halt {
    ghost from_gives = { λ _ h. h ≡ halt.Memory };

    fn from(_error: Memory) -> Halt {
        Halt::Memory
    }
}
