//! A text read into statements, or refused by the first rule that it breaks.
ghost use Rattle.std.specs.Prelude.{◌≡◌, ◌≤◌, ℕ, [], length, None, IfOk, IfErr, OnOk};
ghost use Rattle.f95_lexer.specs.Lines.{feeds_of};
ghost use Rattle.f95_lexer.specs.Statements.{statements_of, items_of, lexemes_of};
ghost use Rattle.f95_lexer.specs.Spelling.{Cuts};
ghost use Rattle.a95_base.specs.Breaks.{first_of};
ghost use Rattle.f95_lexer.specs.Rules.{breaks_of, IsBroken, Refuses, RefusesBy};

use crate::gather::gather;
use crate::limits::LONGEST_FILE;
use crate::splice::{Splicer, splice};
use crate::token::Statements;
use a95_base::{Line, PhaseError, Rule, first_of};
use std::alloc::Global;

fn feeds_of(bytes: &[u8]) -> usize
    ensures value { result ≡ feeds_of bytes.now }
    ensures few { result ≤ length bytes.now }
{
    bytes.iter().filter(|b| **b == b'\n').count()
}

/// The statements of a file that isn't too long.
fn read(alloc: Global, bytes: &[u8]) -> Result<Statements, PhaseError>
    requires { length bytes.now ≤ 1048576 }
    ensures list { IfOk result (λ s. s.list.items ≡ statements_of (items_of (lexemes_of bytes.now))) }
    ensures feeds { IfOk result (λ s. s.feeds ≡ feeds_of bytes.now) }
    ensures unbroken { IfOk result (λ _. breaks_of bytes.now ≡ []) }
    ensures refused { IfErr result (λ e. RefusesBy (first_of (breaks_of bytes.now)) e) }
{
    let Splicer { text, breaks } = splice(alloc, bytes)?;
    let gathered = gather(alloc, text.as_slice(), breaks)?;
    match first_of(gathered.breaks.as_slice()) {
        Some(first) => Err(PhaseError::Broken {
            line: Line(first.line),
            rule: Rule(first.rule),
        }),
        None => Ok(Statements {
            list: gathered.list,
            feeds: feeds_of(bytes) as u32,
        }),
    }
}

/// The statements of a text, each on the line of its first token, with all comments and continuations taken away.
/// A refusal says the first line on which a rule of this phase is broken, and the least rule that is broken there.
pub fn read_statements(alloc: Global, bytes: &[u8]) -> Result<Statements, PhaseError>
    ensures cut { IfOk result (λ s. Cuts bytes.now s.list.items s.feeds) }
    ensures unbroken { OnOk result ((line rule : ℕ) → IsBroken bytes.now line rule → ⊥) }
    ensures refused { IfErr result (Refuses bytes.now) }
{
    if bytes.len() > LONGEST_FILE {
        return Err(PhaseError::Broken {
            line: Line(1),
            rule: Rule::FILE_TOO_LONG,
        });
    }
    read(alloc, bytes)
}
