//! The records that a running program reads and writes: the text of a record of values, and the next INTEGER in the
//! bytes of the input. What a record's text is stands in `specs/Record.antt` of `a95_base`, the rule of input in its
//! `specs/Input.antt`.
#![tactic(auto)]

mod input;
mod laws;
mod record;

pub use input::{Looked, after_record, look};
pub use laws::input_rule;
pub use record::Record;
