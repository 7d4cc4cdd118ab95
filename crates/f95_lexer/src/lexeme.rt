//! What stands at a place of the spliced characters: the longest word, number, text, dotted word or symbol that begins there.
ghost use Rattle.std.specs.Prelude.{◌≡◌, ◌∷◌, ◌+◌, ◌-◌, ◌*◌, ◌≤◌, min, length, IfOk, IsTrue, nat_eq};
ghost use Rattle.std.specs.Cmp.Lexicographic.{pointwise};
ghost use Rattle.a95_base.specs.Input.{is_digit};
ghost use Rattle.f95_lexer.specs.Lexeme.{bytes_of, front, behind_front, word_at, is_word, is_dotted, word_to_point, begins_with};
ghost use Rattle.f95_lexer.specs.Lexeme.{begins_dotted, pointed, clings, taken, value_from, integer, number_at, literal, text_at};
ghost use Rattle.f95_lexer.specs.Lexeme.{symbol_of_one, symbol_of_two, symbol_at, found_at};
ghost use Rattle.f95_lexer.specs.Characters.{is_letter, is_name, lower};

use crate::character::{Character, is_blank, is_delimiter, is_digit, is_letter, is_name, lower};
use crate::token::Mark;
use a95_base::Bytes;
use std::alloc::{AllocError, Global};

/// What stands at a place of a statement.
#[derive(Drop)]
pub enum Lexeme {
    Blank,
    /// The end of the statement.
    End,
    Word(Bytes),
    Number {
        /// None above 2147483647.
        value: Option<i32>,
        /// Whether what directly follows can't follow a number.
        clings: bool,
    },
    Text(Bytes),
    /// A text that isn't closed.
    Unclosed,
    /// Letters between two points.
    Pointed(Bytes),
    Symbol(Mark),
    Stray,
}

/// A lexeme, and how many characters behind the first belong to it.
#[derive(Drop)]
pub struct Found {
    pub lexeme: Lexeme,
    pub further: usize,
}

fn word(alloc: Global, first: u8, rest: &[Character]) -> Result<Found, AllocError>
    ensures { IfOk result (λ f. f ≡ word_at first (bytes_of rest.now)) }
{
    let mut word = Bytes::new(alloc);
    word.push(lower(first))?;
    let mut further = 0usize;
    let mut rest = rest;
    while let [c, more @ ..] = rest {
        if !is_name(c.byte) {
            break;
        }
        word.push(lower(c.byte))?;
        further += 1;
        rest = more;
    }
    Ok(Found {
        lexeme: Lexeme::Word(word),
        further,
    })
}

/// Whether it is a dotted word without its points.
pub fn is_dotted(word: &[u8]) -> bool
    ensures { result ≡ is_dotted word.now }
{
    is(word, b"eq")
        || is(word, b"ne")
        || is(word, b"lt")
        || is(word, b"le")
        || is(word, b"gt")
        || is(word, b"ge")
        || is(word, b"not")
        || is(word, b"and")
        || is(word, b"or")
        || is(word, b"eqv")
        || is(word, b"neqv")
        || is(word, b"true")
        || is(word, b"false")
}

fn is(word: &[u8], name: &[u8]) -> bool
    ensures { result ≡ is_word name.now word.now }
{
    word == name
}

/// The letters up to a point, in lower case.
fn word_to_point(alloc: Global, rest: &[Character]) -> Result<Option<Bytes>, AllocError>
    ensures { IfOk result (λ w. w ≡ word_to_point (bytes_of rest.now)) }
{
    let mut word = Bytes::new(alloc);
    let mut rest = rest;
    while let [c, more @ ..] = rest {
        if !is_letter(c.byte) {
            break;
        }
        word.push(lower(c.byte))?;
        rest = more;
    }
    if !word.is_empty() && begins_with_point(rest) {
        Ok(Some(word))
    } else {
        Ok(None)
    }
}

fn begins_with_point(rest: &[Character]) -> bool
    ensures { result ≡ begins_with 46 (bytes_of rest.now) }
{
    match rest {
        [] => false,
        [c, ..] => c.byte == b'.',
    }
}

/// Just past the greatest number.
const PAST: u64 = 2147483648;

/// Whether a number can't stand directly before these characters, and how many of them it then takes with it.
fn behind_number(alloc: Global, rest: &[Character]) -> Result<(bool, usize), AllocError>
    ensures value { IfOk result (λ r. (r.0 ≡ clings (bytes_of rest.now)) × (r.1 ≡ taken (bytes_of rest.now))) }
    ensures within { IfOk result (λ r. r.1 ≤ length rest.now) }
{
    let [c, more @ ..] = rest else {
        return Ok((false, 0));
    };
    if is_letter(c.byte) {
        return Ok((true, 0));
    }
    if c.byte == b'_' {
        return Ok((true, 1));
    }
    if c.byte != b'.' {
        return Ok((false, 0));
    }
    match word_to_point(alloc, more)? {
        Some(word) => Ok((!is_dotted(word.as_slice()), 0)),
        None => Ok((true, 1)),
    }
}

/// A number with one more digit, counted no further than `PAST`.
fn one_more(value: u64, digit: u8) -> u64
    requires small { value ≤ 2147483648 }
    requires digit { IsTrue (is_digit digit) }
    ensures { result ≡ min (value * 10 + (digit - 48)) 2147483648 }
{
    (value * 10 + u64::from(digit - b'0')).min(PAST)
}

/// What digits behind a first one write with it, how many they are, and what stands behind them.
fn digits(first: u8, rest: &[Character]) -> (u64, usize, &[Character])
    requires { IsTrue (is_digit first) }
    ensures value { integer result.0 ≡ integer (value_from (first - 48) (front is_digit (bytes_of rest.now))) }
    ensures count { result.1 ≡ length (front is_digit (bytes_of rest.now)) }
    ensures behind { bytes_of result.2.now ≡ behind_front is_digit (bytes_of rest.now) }
    ensures within { result.1 + length result.2.now ≡ length rest.now }
{
    let mut value = u64::from(first - b'0');
    let mut further = 0usize;
    let mut rest = rest;
    while let [c, more @ ..] = rest {
        if !is_digit(c.byte) {
            break;
        }
        value = one_more(value, c.byte);
        further += 1;
        rest = more;
    }
    (value, further, rest)
}

fn number(alloc: Global, first: u8, rest: &[Character]) -> Result<Found, AllocError>
    requires { IsTrue (is_digit first) }
    ensures { IfOk result (λ f. f ≡ number_at first (bytes_of rest.now)) }
{
    let (value, further, behind) = digits(first, rest);
    let (clings, taken) = behind_number(alloc, behind)?;
    Ok(Found {
        lexeme: Lexeme::Number {
            value: integer(value),
            clings,
        },
        further: further + taken,
    })
}

fn integer(value: u64) -> Option<i32>
    ensures { result ≡ integer value }
{
    if value < PAST {
        Some(value as i32)
    } else {
        None
    }
}

/// What a text holds.
fn text(alloc: Global, delimiter: u8, rest: &[Character]) -> Result<Found, AllocError>
    ensures { IfOk result (λ f. f ≡ text_at delimiter (bytes_of rest.now)) }
{
    let mut bytes = Bytes::new(alloc);
    let mut further = 0usize;
    let mut behind = false;
    let mut rest = rest;
    while let [c, more @ ..] = rest {
        if behind && c.byte != delimiter || !behind && c.byte == b'\n' {
            break;
        }
        if !behind && c.byte == delimiter {
            behind = true;
        } else {
            bytes.push(c.byte)?;
            behind = false;
        }
        further += 1;
        rest = more;
    }
    let lexeme = if behind {
        Lexeme::Text(bytes)
    } else {
        Lexeme::Unclosed
    };
    Ok(Found { lexeme, further })
}

/// Letters between two points, behind the first point.
fn point(alloc: Global, rest: &[Character]) -> Result<Found, AllocError>
    ensures { IfOk result (λ f. f ≡ pointed (word_to_point (bytes_of rest.now))) }
{
    match word_to_point(alloc, rest)? {
        Some(word) => {
            let further = word.len() + 1;
            Ok(Found {
                lexeme: Lexeme::Pointed(word),
                further,
            })
        }
        None => Ok(Found {
            lexeme: Lexeme::Stray,
            further: 0,
        }),
    }
}

fn symbol_of_two(first: u8, second: u8) -> Option<Mark>
    ensures { result ≡ symbol_of_two first second }
{
    match (first, second) {
        (b'(', b'/') => Some(Mark::OpenArray),
        (b'/', b')') => Some(Mark::CloseArray),
        (b':', b':') => Some(Mark::DoubleColon),
        (b'=', b'=') => Some(Mark::Equal),
        (b'/', b'=') => Some(Mark::NotEqual),
        (b'<', b'=') => Some(Mark::LessEqual),
        (b'>', b'=') => Some(Mark::GreaterEqual),
        (b'*', b'*') => Some(Mark::Power),
        (b'/', b'/') => Some(Mark::Concat),
        _ => None,
    }
}

fn symbol_of_one(first: u8) -> Option<Mark>
    ensures { result ≡ symbol_of_one first }
{
    match first {
        b'(' => Some(Mark::Open),
        b')' => Some(Mark::Close),
        b',' => Some(Mark::Comma),
        b':' => Some(Mark::Colon),
        b'=' => Some(Mark::Assign),
        b'<' => Some(Mark::Less),
        b'>' => Some(Mark::Greater),
        b'+' => Some(Mark::Plus),
        b'-' => Some(Mark::Minus),
        b'*' => Some(Mark::Star),
        b'/' => Some(Mark::Slash),
        _ => None,
    }
}

fn symbol(first: u8, rest: &[Character]) -> Found
    ensures { result ≡ symbol_at first (bytes_of rest.now) }
{
    if let [second, ..] = rest
        && let Some(mark) = symbol_of_two(first, second.byte)
    {
        return Found {
            lexeme: Lexeme::Symbol(mark),
            further: 1,
        };
    }
    match symbol_of_one(first) {
        Some(mark) => Found {
            lexeme: Lexeme::Symbol(mark),
            further: 0,
        },
        None => Found {
            lexeme: Lexeme::Stray,
            further: 0,
        },
    }
}

/// What begins with the first character, before the rest.
pub fn lexeme_at(alloc: Global, first: u8, rest: &[Character]) -> Result<Found, AllocError>
    ensures { IfOk result (λ f. f ≡ found_at first (bytes_of rest.now)) }
{
    if is_blank(first) {
        Ok(Found {
            lexeme: Lexeme::Blank,
            further: 0,
        })
    } else if first == b'\n' {
        Ok(Found {
            lexeme: Lexeme::End,
            further: 0,
        })
    } else if is_letter(first) {
        word(alloc, first, rest)
    } else if is_digit(first) {
        number(alloc, first, rest)
    } else if is_delimiter(first) {
        text(alloc, first, rest)
    } else if first == b'.' {
        point(alloc, rest)
    } else {
        Ok(symbol(first, rest))
    }
}
