//! Where a tree stands.

use nest_sorts::Scope;

/// The scope of a tree, and how many nests it stands within.
#[derive(Clone, Copy)]
pub struct Position<'a> {
    pub scope: Scope<'a>,
    pub nests: u32,
}
