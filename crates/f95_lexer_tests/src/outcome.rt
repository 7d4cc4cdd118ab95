//! What a text comes to, written as text: each statement with its line, or the rule and its line.
use a95_base::PhaseError;
use f95_lexer::{Mark, Statements, Token, read_statements};
use std::alloc::{AllocError, Global};
use std::fmt::Write;

fn symbol(mark: Mark) -> &'static str {
    match mark {
        Mark::Open => "(",
        Mark::Close => ")",
        Mark::OpenArray => "(/",
        Mark::CloseArray => "/)",
        Mark::Comma => ",",
        Mark::Colon => ":",
        Mark::DoubleColon => "::",
        Mark::Assign => "=",
        Mark::Equal => "==",
        Mark::NotEqual => "/=",
        Mark::Less => "<",
        Mark::LessEqual => "<=",
        Mark::Greater => ">",
        Mark::GreaterEqual => ">=",
        Mark::Plus => "+",
        Mark::Minus => "-",
        Mark::Star => "*",
        Mark::Power => "**",
        Mark::Slash => "/",
        Mark::Concat => "//",
    }
}

fn put_between(out: &mut String, around: char, bytes: &[u8]) -> Result<(), AllocError> {
    out.push(around)?;
    for b in bytes {
        out.push(char::from(*b))?;
    }
    out.push(around)
}

fn put_token(out: &mut String, token: &Token) -> Result<(), AllocError> {
    match token {
        Token::Word(word) => put_between(out, ' ', word.as_slice()),
        Token::Number(number) => write!(out, " {number} "),
        Token::Text(text) => put_between(out, '\'', text.as_slice()),
        Token::Dotted(word) => put_between(out, '.', word.as_slice()),
        Token::Mark(mark) => out.push_str(symbol(*mark)),
    }
}

fn shown(alloc: Global, statements: &Statements) -> Result<String, AllocError> {
    let mut out = String::new(alloc);
    for statement in statements.list.as_slice() {
        let line = statement.line.0;
        write!(out, "[{line}]")?;
        for token in statement.tokens.as_slice() {
            put_token(&mut out, token)?;
        }
    }
    Ok(out)
}

pub fn outcome(alloc: Global, source: &[u8]) -> Result<String, AllocError> {
    match read_statements(alloc, source) {
        Ok(statements) => shown(alloc, &statements),
        Err(PhaseError::Broken { line, rule }) => {
            let (line, rule) = (line.0, rule.0);
            format!(in alloc; "P{rule} at {line}")
        }
        Err(PhaseError::Memory) => String::from_str(alloc, "no memory"),
    }
}

/// A text, and what it comes to.
pub type Row = (&'static [u8], &'static str);

/// The first row that comes to something else.
pub fn first_wrong(alloc: Global, rows: &[Row]) -> Result<Option<usize>, AllocError> {
    for (row, (source, wanted)) in rows.iter().enumerate() {
        if outcome(alloc, source)?.as_str() != *wanted {
            return Ok(Some(row));
        }
    }
    Ok(None)
}
