//! Distances between the turns that store and read one place.
/// One entry of a distance: how many turns of its loop lie between two accesses of one place, or Any where that isn't known.
#[derive(Clone, Copy, Debug, PartialEq, Eq)]
pub enum Entry {
    Known(i64),
    Any,
}

/// How far the turn that reads a place is from the turn that stores it: an entry for each of `R` loops, loop 1 first.
#[derive(Clone, Copy, Debug, PartialEq, Eq)]
pub struct Dist<const R: usize> {
    pub entries: [Entry; R],
}
