//! The atom that a text begins with, and what stands behind it. Each function takes its bytes for what
//! `specs/Guess.antt` says, whatever they are.

ghost use Rattle.std.specs.Prelude.{◌≡◌, [], IfOk, drop};
ghost use Rattle.a95_base.specs.Input.{is_digit};
ghost use Rattle.loop_text.specs.Guess.{byte_at, begins, begins_atom, begins_text, number_on, index_on, atom_on};
ghost use Rattle.loop_text.specs.Guess.{quoted_onto, ends_quote, escape_left, behind_quote, text_on, reference_on, argument_on};
ghost use Rattle.loop_text.specs.Guess.{arguments_onto, arguments_on};

use a95_base::Bytes;
use loop_tree::{Argument, Atom, Reference, TextAtom};
use sqlite_items::{Boxed, Items};
use std::alloc::{AllocError, Global};

/// What stands behind so many bytes.
pub fn skip(bytes: &[u8], count: usize) -> &[u8]
    ensures { result.now ≡ drop count bytes.now }
{
    if count <= bytes.len() {
        &bytes[count..]
    } else {
        &[]
    }
}

/// The byte at a place, or 0 behind the end.
pub fn byte_at(bytes: &[u8], place: usize) -> u8
    ensures { result ≡ byte_at bytes.now place }
{
    if place < bytes.len() { bytes[place] } else { 0 }
}

pub fn begins(bytes: &[u8], word: &[u8]) -> bool
    ensures { result ≡ begins bytes.now word.now }
{
    bytes.starts_with(word)
}

pub fn is_digit(byte: u8) -> bool
    ensures { result ≡ is_digit byte }
{
    byte >= b'0' && byte <= b'9'
}

/// The byte begins an integer atom.
pub fn begins_atom(byte: u8) -> bool
    ensures { result ≡ begins_atom byte }
{
    is_digit(byte) || byte == b'-' || byte == b'i' || byte == b'k'
}

/// The byte begins a text atom.
pub fn begins_text(byte: u8) -> bool
    ensures { result ≡ begins_text byte }
{
    byte == b'"' || byte == b's'
}

/// A number modulo 2^64, and what stands behind its digits.
pub fn number(bytes: &[u8]) -> (u64, &[u8])
    ensures value { result.0 ≡ (number_on bytes.now).value }
    ensures rest { result.1.now ≡ (number_on bytes.now).rest }
{
    let mut n = 0_u64;
    for (place, byte) in bytes.iter().enumerate() {
        if !is_digit(*byte) {
            return (n, skip(bytes, place));
        }
        n = n.wrapping_mul(10).wrapping_add(u64::from(*byte - b'0'));
    }
    (n, &[])
}

/// The number of a variable, modulo 2^32.
pub fn index(bytes: &[u8]) -> (u32, &[u8])
    ensures value { result.0 ≡ (index_on bytes.now).value }
    ensures rest { result.1.now ≡ (index_on bytes.now).rest }
{
    let (n, rest) = number(bytes);
    ((n % (1 << 32)) as u32, rest)
}

#[tactic(auto, unfolding(crate::specs::Guess::atom_on))]
pub fn atom(bytes: &[u8]) -> (Atom, &[u8])
    ensures value { result.0 ≡ (atom_on bytes.now).value }
    ensures rest { result.1.now ≡ (atom_on bytes.now).rest }
{
    let first = byte_at(bytes, 0);
    if first == b'i' {
        let (n, rest) = index(skip(bytes, 1));
        return (Atom::Int(n), rest);
    }
    if first == b'k' {
        let (k, rest) = index(skip(bytes, 1));
        return (Atom::Loop(k), rest);
    }
    if first == b'-' {
        let (n, rest) = number(skip(bytes, 1));
        return (Atom::Number(n.cast_signed().wrapping_neg()), rest);
    }
    let (n, rest) = number(bytes);
    (Atom::Number(n.cast_signed()), rest)
}

/// The bytes up to the closing quote.
fn quoted(alloc: Global, bytes: &[u8]) -> Result<Bytes, AllocError>
    ensures { IfOk result (λ q. q ≡ quoted_onto [] 0 0 bytes.now) }
{
    let mut done = Bytes::new(alloc);
    let mut left = 0_u8;
    let mut value = 0_u8;
    for byte in bytes {
        if left == 0 {
            value = 0;
            if *byte == b'"' {
                return Ok(done);
            }
            if *byte == b'\\' {
                left = 3;
            } else {
                done.push(*byte)?;
            }
        } else {
            value = value.wrapping_mul(8).wrapping_add(byte.wrapping_sub(b'0'));
            if left == 1 {
                done.push(value)?;
                value = 0;
            }
            left -= 1;
        }
    }
    Ok(done)
}

/// The byte is the closing quote, where `left` digits of an escape are to come.
fn ends_quote(left: u8, byte: u8) -> bool
    ensures { result ≡ ends_quote left byte }
{
    if left == 0 { byte == b'"' } else { false }
}

/// How many digits of an escape are to come behind the byte.
fn escape_left(left: u8, byte: u8) -> u8
    ensures { result ≡ escape_left left byte }
{
    if left > 0 {
        left - 1
    } else if byte == b'\\' {
        3
    } else {
        0
    }
}

/// What stands behind the closing quote.
fn behind_quote(bytes: &[u8]) -> &[u8]
    ensures { result.now ≡ behind_quote 0 bytes.now }
{
    let mut left = 0_u8;
    for (place, byte) in bytes.iter().enumerate() {
        if ends_quote(left, *byte) {
            return skip(bytes, place + 1);
        }
        left = escape_left(left, *byte);
    }
    &[]
}

#[tactic(auto, unfolding(crate::specs::Guess::text_on))]
pub fn text(alloc: Global, bytes: &[u8]) -> Result<TextAtom, AllocError>
    ensures { IfOk result (λ t. t ≡ (text_on bytes.now).value) }
{
    if byte_at(bytes, 0) == b'"' {
        let literal = quoted(alloc, skip(bytes, 1))?;
        return Ok(TextAtom::Literal(Boxed::new(alloc, literal)?));
    }
    let (n, _) = index(skip(bytes, 1));
    Ok(TextAtom::Variable(n))
}

#[tactic(auto, unfolding(crate::specs::Guess::text_on))]
pub fn behind_text(bytes: &[u8]) -> &[u8]
    ensures { result.now ≡ (text_on bytes.now).rest }
{
    if byte_at(bytes, 0) == b'"' {
        return behind_quote(skip(bytes, 1));
    }
    let (_, rest) = index(skip(bytes, 1));
    rest
}

#[tactic(auto, unfolding(crate::specs::Guess::reference_on))]
pub fn reference(bytes: &[u8]) -> (Reference, &[u8])
    ensures value { result.0 ≡ (reference_on bytes.now).value }
    ensures rest { result.1.now ≡ (reference_on bytes.now).rest }
{
    let (n, rest) = index(skip(bytes, 1));
    if byte_at(bytes, 0) == b'b' {
        return (Reference::Ints(n), rest);
    }
    (Reference::Texts(n), rest)
}

#[tactic(auto, unfolding(crate::specs::Guess::argument_on))]
fn argument(alloc: Global, bytes: &[u8]) -> Result<Argument, AllocError>
    ensures { IfOk result (λ a. a ≡ (argument_on bytes.now).value) }
{
    let first = byte_at(bytes, 0);
    if begins_atom(first) {
        let (a, _) = atom(bytes);
        return Ok(Argument::Int(a));
    }
    if begins_text(first) {
        let t = text(alloc, bytes)?;
        return Ok(Argument::Text(t));
    }
    let (r, _) = reference(bytes);
    Ok(Argument::Block(r))
}

#[tactic(auto, unfolding(crate::specs::Guess::argument_on))]
fn behind_argument(bytes: &[u8]) -> &[u8]
    ensures { result.now ≡ (argument_on bytes.now).rest }
{
    let first = byte_at(bytes, 0);
    if begins_atom(first) {
        let (_, rest) = atom(bytes);
        return rest;
    }
    if begins_text(first) {
        return behind_text(bytes);
    }
    let (_, rest) = reference(bytes);
    rest
}

/// The arguments of a call, from behind the bracket that opens them.
#[tactic(auto, unfolding(crate::specs::Guess::arguments_on, crate::specs::Guess::arguments_onto))]
pub fn arguments(alloc: Global, bytes: &[u8]) -> Result<Items<Argument>, AllocError>
    ensures { IfOk result (λ all. all ≡ arguments_on bytes.now) }
{
    let mut all = Items::new(alloc);
    if byte_at(bytes, 0) == b')' {
        return Ok(all);
    }
    let mut rest = bytes;
    for _turn in 0..bytes.len() {
        all.push(argument(alloc, rest)?)?;
        let behind = behind_argument(rest);
        if byte_at(behind, 0) != b',' {
            return Ok(all);
        }
        rest = skip(behind, 2);
    }
    Ok(all)
}
