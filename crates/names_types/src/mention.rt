//! A name that the statement on a line names.

use a95_base::SharedBytes;

#[derive(Drop)]
pub struct Mention {
    pub line: u32,
    pub name: SharedBytes,
}
