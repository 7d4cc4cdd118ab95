//! What stands first in some terminals, and what stands behind it.

ghost use Rattle.std.specs.Prelude.{◌≡◌, ◌∷◌, [], MatchOption, IfOk, option_map, option_and_then};
ghost use Rattle.f95_parts.specs.Views.{is, is_nil, mark_number, is_mark, is_star, behind, behind_star, as_name, as_keyword};
ghost use Rattle.f95_parts.specs.Views.{as_literal, behind_name, behind_keyword, behind_literal, behind_word, name_at_end, at_end};

use a95_base::SharedBytes;
use f95_tree::{Keyword, Literal, Operator, Punctuation, Terminal};
use std::alloc::{AllocError, Global};

#[inline]
#[tactic(auto, using(crate::proofs::Lengths::unlike))]
pub fn is(name: &[u8], word: &[u8]) -> bool
    ensures { result ≡ is name.now word.now }
{
    // a word has mostly another length than a keyword, and that of a keyword is known where this is inlined
    word.len() == name.len() && word == name
}

pub fn is_nil(terminals: &[Terminal]) -> bool
    ensures { result ≡ is_nil terminals.now }
{
    match terminals {
        [] => true,
        _ => false,
    }
}

fn mark_number(mark: Punctuation) -> u8
    ensures { result ≡ mark_number mark }
{
    match mark {
        Punctuation::Open => 0,
        Punctuation::Close => 1,
        Punctuation::OpenArray => 2,
        Punctuation::CloseArray => 3,
        Punctuation::Comma => 4,
        Punctuation::Colon => 5,
        Punctuation::DoubleColon => 6,
        Punctuation::Assign => 7,
    }
}

fn is_mark(mark: Punctuation, terminal: &Terminal) -> bool
    ensures { result ≡ is_mark mark terminal.now }
{
    match terminal {
        Terminal::Punctuation(other) => mark_number(mark) == mark_number(*other),
        _ => false,
    }
}

fn is_star(terminal: &Terminal) -> bool
    ensures { result ≡ is_star terminal.now }
{
    matches!(terminal, Terminal::Operator(Operator::Multiply))
}

pub fn parted(terminals: &[Terminal]) -> Option<(&Terminal, &[Terminal])>
    ensures { MatchOption result (terminals.now ≡ []) (λ p. terminals.now ≡ p.0.now ∷ p.1.now) }
{
    terminals.split_first()
}

/// What stands behind this symbol, if it stands first.
pub fn behind(mark: Punctuation, terminals: &[Terminal]) -> Option<&[Terminal]>
    ensures { option_map (λ rest. rest.now) result ≡ behind mark terminals.now }
{
    match parted(terminals) {
        None => None,
        Some((first, rest)) => {
            if is_mark(mark, first) {
                Some(rest)
            } else {
                None
            }
        }
    }
}

/// What stands behind a star, if it stands first.
pub fn behind_star(terminals: &[Terminal]) -> Option<&[Terminal]>
    ensures { option_map (λ rest. rest.now) result ≡ behind_star terminals.now }
{
    match parted(terminals) {
        None => None,
        Some((first, rest)) => { if is_star(first) { Some(rest) } else { None } }
    }
}

/// A name and what stands behind it.
#[derive(Clone, Copy)]
pub struct Named<'a> {
    pub name: &'a SharedBytes,
    pub rest: &'a [Terminal],
}

pub fn behind_name(terminals: &[Terminal]) -> Option<Named<'_>>
    ensures { option_map (λ n. (n.name.now, n.rest.now)) result ≡ behind_name terminals.now }
{
    match parted(terminals) {
        Some((Terminal::Name(name), rest)) => Some(Named { name, rest }),
        _ => None,
    }
}

/// A keyword and what stands behind it.
#[derive(Drop)]
pub struct Keyed<'a> {
    pub keyword: Keyword,
    pub rest: &'a [Terminal],
}

pub fn behind_keyword(terminals: &[Terminal]) -> Option<Keyed<'_>>
    ensures { option_map (λ k. (k.keyword, k.rest.now)) result ≡ behind_keyword terminals.now }
{
    match parted(terminals) {
        Some((Terminal::Keyword(keyword), rest)) => Some(Keyed {
            keyword: *keyword,
            rest,
        }),
        _ => None,
    }
}

/// What stands behind this word, if it stands first.
pub fn behind_word<'a>(word: &[u8], terminals: &'a [Terminal]) -> Option<&'a [Terminal]>
    ensures { option_map (λ rest. rest.now) result ≡ behind_word word.now terminals.now }
{
    let named = behind_name(terminals)?;
    if is(word, named.name.as_slice()) {
        Some(named.rest)
    } else {
        None
    }
}
