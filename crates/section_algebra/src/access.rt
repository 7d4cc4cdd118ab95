//! How an array is accessed in a nest of loops.
/// One dimension of an array: the loop from 1 to `R` that runs in it, its stride where that is constant and not 0, and its start
/// relative to a base form, where that is constant.
#[derive(Clone, Copy)]
pub struct DimAccess {
    pub along: Option<u8>,
    pub stride: Option<i32>,
    pub start: Option<i32>,
}

/// An access in `R` loops: a dimension of the array each, of which the first `rank` are in use.
#[derive(Clone, Copy)]
pub struct Access<const R: usize> {
    pub rank: u8,
    pub dims: [DimAccess; 7],
}
