//! Names in the order in which they are declared, and where each of them stands first.
#![tactic(auto)]

mod table;

pub use table::NameTable;
