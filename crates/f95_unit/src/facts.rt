//! What the source alone tells of a value.

use a95_base::Kind;
use sqlite_items::Items;

/// The kind, the length of a CHARACTER value where it is known, and for each dimension the extent where it is known.
#[derive(Drop)]
pub struct Facts {
    pub kind: Kind,
    pub length: Option<u32>,
    pub extents: Items<Option<u64>>,
}
