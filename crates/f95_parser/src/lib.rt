//! The second phase of the reader: tokens to a form, or the least rule that they break. `specs/Words` has the reserved words and
//! those that are left out, `specs/Tokens` what each token stands for in the grammar, and `specs/Rules` when tokens are of a form,
//! by how forms are spelled in `f95_tree`, and the three rules. `specs/Reading` is how the code reads: which form some terminals
//! are. `proofs/FormLaws` shows that this is the one form that they spell, and none where they spell none, so no public clause
//! speaks of it.
#![tactic(auto)]

mod block;
mod form;
mod laws;
mod read;
mod tokens;
mod words;

pub use laws::{one_form, unbroken_form};
pub use read::read_form;
