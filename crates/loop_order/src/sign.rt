//! The signs of the entries of distances.
ghost use Rattle.std.specs.Prelude.{◌≡◌, ◌+◌, ◌<◌, slice_index_or};
ghost use Rattle.rank_shape.specs.declared.distance.Entry.TheVariants as entry;
ghost use Rattle.loop_order.specs.Choice.{is_still};
ghost use Rattle.loop_order.specs.Legal.{sign_of, sign_at};

use rank_shape::Entry;

/// What the order of the loops depends on in an entry of a distance.
#[derive(Clone, Copy, Debug, PartialEq, Eq)]
pub(crate) enum Sign {
    Unknown,
    Still,
    Up,
    Down,
}

impl Sign {
    pub(crate) fn is_still(self) -> bool
        ensures { result ≡ is_still self }
    {
        matches!(self, Sign::Still)
    }
}

pub(crate) fn sign_of(entry: Entry) -> Sign
    ensures { result ≡ sign_of entry }
{
    match entry {
        Entry::Any => Sign::Unknown,
        Entry::Known(0) => Sign::Still,
        Entry::Known(turns) => { if turns > 0 { Sign::Up } else { Sign::Down } }
    }
}

// The sign for the loop over this dimension, which is the loop of the next number.
pub(crate) fn sign_in<const R: usize>(entries: &[Entry; R], dim: usize) -> Sign
    requires { dim < R }
    ensures entry { result ≡ sign_of (slice_index_or entries.now dim entry.Any) }
    ensures at_loop { result ≡ sign_at entries.now (dim + 1) }
{
    sign_of(entries[dim])
}
