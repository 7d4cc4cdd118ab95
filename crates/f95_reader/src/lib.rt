//! The reader as far as names: bytes to nested forms, or the least rule that they break. `specs/Reading` says what bytes read as,
//! and which rules they break, by what `f95_lexer`, `f95_parser` and `f95_nesting` say of text, forms and nesting.
#![tactic(auto)]

mod forms;
mod laws;
mod read;
mod refusal;

pub use forms::forms_of;
pub use laws::{breaks_nothing, lines_within, one_source, terminals_within, unbroken_bytes_read};
pub use read::read_source;
pub use refusal::Refusal;
