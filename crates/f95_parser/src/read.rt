//! `read_form`: tokens to a form.

ghost use Rattle.std.specs.Prelude.{◌≡◌, ◌≤◌, ◌<◌, IfOk, IfErr, OnOk};
ghost use Rattle.f95_parser.specs.Rules.{IsOfForm, IsFormless, Refuses, begins_left_out, most_open, most_brackets};
ghost use Rattle.f95_parser.specs.Reading.{form_of};
ghost use Rattle.f95_parser.specs.Tokens.{terminals_of};

use crate::form::form_of;
use crate::tokens::{most_open, terminals_of};
use crate::words::is_left_out;
use a95_base::{Line, PhaseError, Rule};
use f95_lexer::Token;
use f95_tree::Form;
use std::alloc::{AllocError, Global};

/// The most brackets that may be open at one token.
const MOST_OPEN: usize = 64;

fn begins_left_out(tokens: &[Token]) -> bool
    ensures { result ≡ begins_left_out tokens.now }
{
    match tokens.first() {
        Some(Token::Word(word)) => is_left_out(word.as_slice()),
        _ => false,
    }
}

/// The rule that tokens of no form break.
fn refusal(line: Line, tokens: &[Token]) -> PhaseError
    requires { IsFormless tokens.now }
    ensures { Refuses line.0 tokens.now result }
{
    if begins_left_out(tokens) {
        PhaseError::Broken {
            line,
            rule: Rule(12),
        }
    } else {
        PhaseError::Broken {
            line,
            rule: Rule(11),
        }
    }
}

/// The form of what tokens stand for.
fn form_in(alloc: Global, tokens: &[Token]) -> Result<Option<Form>, AllocError>
    ensures { IfOk result (λ form. form ≡ form_of (terminals_of tokens.now)) }
{
    let terminals = terminals_of(alloc, tokens)?;
    let form = form_of(alloc, terminals.as_slice());
    drop(terminals);
    form
}

/// The form of a statement's tokens, by the grammar that `f95_tree` prints: what they stand for spells the form, and the form is
/// well formed. A refusal is on the statement's line: rule 11 where the tokens are of no form, 12 where moreover the first one
/// begins a statement that the language leaves out, 13 where they are of one, with more than 64 brackets open at one token.
pub fn read_form(alloc: Global, line: Line, tokens: &[Token]) -> Result<Form, PhaseError>
    ensures read { IfOk result (IsOfForm tokens.now) }
    ensures few { OnOk result (most_open 0 tokens.now ≤ most_brackets) }
    ensures refused { IfErr result (Refuses line.0 tokens.now) }
{
    match form_in(alloc, tokens)? {
        None => Err(refusal(line, tokens)),
        Some(form) => {
            if most_open(tokens) > MOST_OPEN {
                drop(form);
                Err(PhaseError::Broken {
                    line,
                    rule: Rule(13),
                })
            } else {
                Ok(form)
            }
        }
    }
}
