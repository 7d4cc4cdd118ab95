//! Where a statement stands.

use nest_tree::{NestUnit, Procedure};

/// The unit, the procedure, and how many loops the nest around has.
#[derive(Clone, Copy)]
pub struct Scope<'a> {
    pub unit: &'a NestUnit,
    pub own: &'a Procedure,
    pub loops: usize,
}
