//! Bytes to nested forms.
ghost use Rattle.std.specs.Prelude.{◌≡◌, IfOk, IfErr};
ghost use Rattle.f95_reader.specs.Reading.{ReadsSource, Refuses};

use crate::forms::forms_of;
use crate::refusal::Refusal;
use f95_blocks::nest;
use f95_lexer::{cuts_unbroken, one_cut, read_statements};
use f95_parser::one_form;
use f95_tree::Source;
use std::alloc::Global;

/// The nested forms that the bytes of a file read as. A refusal says the first of the phases 1 to 3 in which they break a rule, in
/// it the first line, and on that the least rule (`specs/Reading`).
#[tactic(auto, using(crate::proofs::LeastLaws::reads, crate::proofs::LeastLaws::refused_in_text, crate::proofs::Lines::feeds_fit))]
pub fn read_source(alloc: Global, bytes: &[u8]) -> Result<Source, Refusal>
    ensures reads { IfOk result (ReadsSource bytes.now) }
    ensures refused { IfErr result (Refuses bytes.now) }
{
    // bytes have at most one list of forms, and those that are cut break no rule on text
    one_form();
    one_cut();
    cuts_unbroken();
    let statements = match read_statements(alloc, bytes) {
        Ok(statements) => statements,
        Err(error) => return Err(Refusal::in_phase(1, error)),
    };
    let forms = match forms_of(alloc, statements.list) {
        Ok(forms) => forms,
        Err(error) => return Err(Refusal::in_phase(2, error)),
    };
    match nest(alloc, forms, statements.feeds) {
        Ok(source) => Ok(source),
        Err(error) => Err(Refusal::in_phase(3, error)),
    }
}
