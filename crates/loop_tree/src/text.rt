//! How atoms and rows are written: `Display` gives the spelling of `specs/Text.antt`.

ghost use Rattle.std.specs.Prelude.{◌≡◌, Some};
ghost use Rattle.loop_tree.specs.Text.{atom_text, text_atom_text, reference_text, argument_text, operator_text, letter_text};
ghost use Rattle.loop_tree.specs.Text.{is_plain, byte_text, bytes_text};

use crate::atom::{Argument, Atom, Letter, Operator, Reference, TextAtom};
use std::fmt::{self, Display};

impl fmt::Display for Letter {
    ghost output = { λ l. Some (letter_text l) };

    fn fmt<W: fmt::Write>(&self, f: &mut fmt::Formatter<W>) -> fmt::Result {
        f.write_str(match self {
            Letter::Int => "i",
            Letter::Text => "s",
            Letter::Ints => "b",
            Letter::Texts => "c",
        })
    }
}

impl fmt::Display for Atom {
    ghost output = { λ a. Some (atom_text a) };

    fn fmt<W: fmt::Write>(&self, f: &mut fmt::Formatter<W>) -> fmt::Result {
        match self {
            Atom::Int(n) => write!(f, "i{n}"),
            Atom::Loop(k) => write!(f, "k{k}"),
            Atom::Number(z) => z.fmt(f),
        }
    }
}

/// The byte stands for itself between quotes.
fn is_plain(byte: u8) -> bool
    ensures { result ≡ is_plain byte }
{
    byte >= 32 && byte <= 126 && byte != b'"' && byte != b'\\'
}

/// A byte of a text between quotes.
#[derive(Clone, Copy)]
struct QuotedByte(u8);

impl fmt::Display for QuotedByte {
    ghost output = { λ b. Some (byte_text b.0) };

    fn fmt<W: fmt::Write>(&self, f: &mut fmt::Formatter<W>) -> fmt::Result {
        let byte = self.0;
        if is_plain(byte) {
            let plain = char::from(byte);
            write!(f, "{plain}")
        } else {
            let high = byte / 64;
            let middle = byte / 8 % 8;
            let low = byte % 8;
            write!(f, "\\{high}{middle}{low}")
        }
    }
}

/// The bytes of a text between quotes.
#[derive(Clone, Copy)]
struct QuotedBytes<'a>(&'a [u8]);

impl fmt::Display for QuotedBytes<'_> {
    ghost output = { λ b. Some (bytes_text b.0.now) };

    fn fmt<W: fmt::Write>(&self, f: &mut fmt::Formatter<W>) -> fmt::Result {
        for byte in self.0 {
            let quoted = QuotedByte(*byte);
            write!(f, "{quoted}")?;
        }
        Ok(())
    }
}

impl fmt::Display for TextAtom {
    ghost output = { λ t. Some (text_atom_text t) };

    fn fmt<W: fmt::Write>(&self, f: &mut fmt::Formatter<W>) -> fmt::Result {
        match self {
            TextAtom::Variable(n) => write!(f, "s{n}"),
            TextAtom::Literal(bytes) => {
                let quoted = QuotedBytes(bytes.get().as_slice());
                write!(f, "\"{quoted}\"")
            }
        }
    }
}

impl fmt::Display for Reference {
    ghost output = { λ r. Some (reference_text r) };

    fn fmt<W: fmt::Write>(&self, f: &mut fmt::Formatter<W>) -> fmt::Result {
        match self {
            Reference::Ints(n) => write!(f, "b{n}"),
            Reference::Texts(n) => write!(f, "c{n}"),
        }
    }
}

impl fmt::Display for Argument {
    ghost output = { λ a. Some (argument_text a) };

    fn fmt<W: fmt::Write>(&self, f: &mut fmt::Formatter<W>) -> fmt::Result {
        match self {
            Argument::Int(a) => a.fmt(f),
            Argument::Text(t) => t.fmt(f),
            Argument::Block(r) => r.fmt(f),
        }
    }
}

impl fmt::Display for Operator {
    ghost output = { λ o. Some (operator_text o) };

    fn fmt<W: fmt::Write>(&self, f: &mut fmt::Formatter<W>) -> fmt::Result {
        f.write_str(match self {
            Operator::Add => "+",
            Operator::Subtract => "-",
            Operator::Multiply => "*",
            Operator::Divide => "/",
            Operator::Remainder => "%",
            Operator::Less => "<",
            Operator::LessEqual => "<=",
            Operator::Equal => "==",
            Operator::NotEqual => "!=",
            Operator::And => "&",
            Operator::Or => "|",
        })
    }
}
