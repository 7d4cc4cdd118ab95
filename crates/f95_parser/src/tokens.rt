//! What tokens stand for in the grammar, as `specs/Tokens` says.

ghost use Rattle.std.specs.Prelude.{◌≡◌, ◌≤◌, ◌<◌, ◌+◌, ◌++◌, ◌∷◌, [], ◌^◌, max, length, IfOk, OnOk};
ghost use Rattle.f95_parser.specs.Words.{reserved};
ghost use Rattle.f95_parser.specs.Tokens.{words_of, dotted, inside, operated, marked, terminals_at, marks_open, open_behind};
ghost use Rattle.f95_parser.specs.Tokens.{terminals_of};
ghost use Rattle.f95_parser.specs.Rules.{most_open};

use crate::words::reserved;
use a95_base::SharedBytes;
use f95_lexer::{Mark, Token};
use f95_parts::is;
use f95_tree::{Literal, Operator, Punctuation, Relation, Terminal};
use sqlite_items::Items;
use std::alloc::{AllocError, Global};

fn put_word(terminals: &mut Items<Terminal>, word: &SharedBytes) -> Result<(), AllocError>
    ensures { OnOk result (terminals.new ≡ terminals.old ++ words_of word.now (reserved word.now)) }
{
    match reserved(word.as_slice()) {
        None => {
            let word = word.share()?;
            terminals.push(Terminal::Name(word))?;
        }
        Some((keyword, None)) => terminals.push(Terminal::Keyword(keyword))?,
        Some((keyword, Some(second))) => {
            terminals.push(Terminal::Keyword(keyword))?;
            terminals.push(Terminal::Keyword(second))?;
        }
    }
    Ok(())
}

fn relation(relation: Relation) -> Terminal
    ensures { result ≡ Terminal.Operator (Operator.Relation relation) }
{
    Terminal::Operator(Operator::Relation(relation))
}

fn logical(value: bool) -> Terminal
    ensures { result ≡ Terminal.Literal (Literal.Logical value) }
{
    Terminal::Literal(Literal::Logical(value))
}

fn dotted(word: &[u8]) -> Terminal
    ensures { result ≡ dotted word.now }
{
    if is(b"eq", word) {
        relation(Relation::Equal)
    } else if is(b"ne", word) {
        relation(Relation::NotEqual)
    } else if is(b"lt", word) {
        relation(Relation::Less)
    } else if is(b"le", word) {
        relation(Relation::LessEqual)
    } else if is(b"gt", word) {
        relation(Relation::Greater)
    } else if is(b"ge", word) {
        relation(Relation::GreaterEqual)
    } else if is(b"not", word) {
        Terminal::Not
    } else if is(b"and", word) {
        Terminal::Operator(Operator::And)
    } else if is(b"or", word) {
        Terminal::Operator(Operator::Or)
    } else if is(b"eqv", word) {
        Terminal::Operator(Operator::Equivalent)
    } else if is(b"neqv", word) {
        Terminal::Operator(Operator::NotEquivalent)
    } else if is(b"true", word) {
        logical(true)
    } else if is(b"false", word) {
        logical(false)
    } else {
        Terminal::Stray
    }
}

fn operated(mark: Mark) -> Terminal
    ensures { result ≡ operated mark }
{
    match mark {
        Mark::Equal => relation(Relation::Equal),
        Mark::NotEqual => relation(Relation::NotEqual),
        Mark::Less => relation(Relation::Less),
        Mark::LessEqual => relation(Relation::LessEqual),
        Mark::Greater => relation(Relation::Greater),
        Mark::GreaterEqual => relation(Relation::GreaterEqual),
        Mark::Plus => Terminal::Operator(Operator::Add),
        Mark::Minus => Terminal::Operator(Operator::Subtract),
        Mark::Star => Terminal::Operator(Operator::Multiply),
        Mark::Power => Terminal::Operator(Operator::Power),
        Mark::Slash => Terminal::Operator(Operator::Divide),
        Mark::Concat => Terminal::Operator(Operator::Concat),
        _ => Terminal::Stray,
    }
}

fn put_mark(terminals: &mut Items<Terminal>, mark: Punctuation) -> Result<(), AllocError>
    ensures { OnOk result (terminals.new ≡ terminals.old ++ Terminal.Punctuation mark ∷ []) }
{
    terminals.push(Terminal::Punctuation(mark))?;
    Ok(())
}

/// `::`, which is two colons inside brackets.
fn put_colons(terminals: &mut Items<Terminal>, depth: usize) -> Result<(), AllocError>
    ensures { OnOk result (terminals.new ≡ terminals.old ++ inside depth (Terminal.Punctuation Punctuation.DoubleColon)) }
{
    if depth == 0 {
        put_mark(terminals, Punctuation::DoubleColon)?;
    } else {
        put_mark(terminals, Punctuation::Colon)?;
        put_mark(terminals, Punctuation::Colon)?;
    }
    Ok(())
}

fn put_operator(terminals: &mut Items<Terminal>, mark: Mark) -> Result<(), AllocError>
    ensures { OnOk result (terminals.new ≡ terminals.old ++ operated mark ∷ []) }
{
    terminals.push(operated(mark))?;
    Ok(())
}

fn put_symbol(terminals: &mut Items<Terminal>, depth: usize, mark: Mark) -> Result<(), AllocError>
    ensures { OnOk result (terminals.new ≡ terminals.old ++ marked depth mark) }
{
    match mark {
        Mark::Open => put_mark(terminals, Punctuation::Open),
        Mark::Close => put_mark(terminals, Punctuation::Close),
        Mark::OpenArray => put_mark(terminals, Punctuation::OpenArray),
        Mark::CloseArray => put_mark(terminals, Punctuation::CloseArray),
        Mark::Comma => put_mark(terminals, Punctuation::Comma),
        Mark::Colon => put_mark(terminals, Punctuation::Colon),
        Mark::DoubleColon => put_colons(terminals, depth),
        Mark::Assign => put_mark(terminals, Punctuation::Assign),
        _ => put_operator(terminals, mark),
    }
}

fn put_token(terminals: &mut Items<Terminal>, depth: usize, token: &Token) -> Result<(), AllocError>
    ensures { OnOk result (terminals.new ≡ terminals.old ++ terminals_at depth token.now) }
{
    match token {
        Token::Word(word) => put_word(terminals, word),
        Token::Number(number) => {
            terminals.push(Terminal::Literal(Literal::Number(*number)))?;
            Ok(())
        }
        Token::Text(text) => {
            let text = text.share()?;
            terminals.push(Terminal::Literal(Literal::Text(text)))?;
            Ok(())
        }
        Token::Dotted(word) => {
            terminals.push(dotted(word.as_slice()))?;
            Ok(())
        }
        Token::Mark(mark) => put_symbol(terminals, depth, *mark),
    }
}

fn marks_open(depth: usize, mark: Mark) -> usize
    requires { depth + 1 < 2 ^ 64 }
    ensures count { result ≡ marks_open depth mark }
    ensures small { result ≤ depth + 1 }
{
    match mark {
        Mark::Open | Mark::OpenArray => depth + 1,
        Mark::Close | Mark::CloseArray => depth.saturating_sub(1),
        _ => depth,
    }
}

/// How many brackets are open behind a token.
fn open_behind(depth: usize, token: &Token) -> usize
    requires { depth + 1 < 2 ^ 64 }
    ensures count { result ≡ open_behind depth token.now }
    ensures small { result ≤ depth + 1 }
{
    match token {
        Token::Mark(mark) => marks_open(depth, *mark),
        _ => depth,
    }
}

/// What the tokens stand for, in their order.
pub fn terminals_of(alloc: Global, tokens: &[Token]) -> Result<Items<Terminal>, AllocError>
    ensures { IfOk result (λ terminals. terminals ≡ terminals_of tokens.now) }
{
    let mut terminals = Items::new(alloc);
    let mut depth = 0;
    for token in tokens {
        put_token(&mut terminals, depth, token)?;
        depth = open_behind(depth, token);
    }
    Ok(terminals)
}

fn larger(a: usize, b: usize) -> usize
    ensures { result ≡ max a b }
{
    if a < b { b } else { a }
}

/// The most brackets that are open at one token.
pub fn most_open(tokens: &[Token]) -> usize
    ensures { result ≡ most_open 0 tokens.now }
{
    let mut depth = 0;
    let mut most = 0;
    for token in tokens {
        most = larger(most, depth);
        depth = open_behind(depth, token);
    }
    larger(most, depth)
}
