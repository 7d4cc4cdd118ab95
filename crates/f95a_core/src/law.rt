//! The law that joins `build` and `run`.
ghost use Rattle.f95a_core.specs.Headline.{Headline};

use loop_laws::with_more_turns;
use loop_text::one_program;

/// A text that `build` writes is never refused, and a run of it on an input does what its source means: it ends with the same
/// output, faults with the same kind and line after the same output, and else has written a prefix of it.
pub fn headline()
    ensures { Headline }
{
    one_program();
    with_more_turns();
}
