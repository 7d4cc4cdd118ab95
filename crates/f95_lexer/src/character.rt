//! Characters with their lines, and the kinds of characters.
ghost use Rattle.std.specs.Prelude.{◌≡◌};
ghost use Rattle.a95_base.specs.Input.{is_digit};
ghost use Rattle.f95_lexer.specs.Characters.{is_blank, is_letter, is_name, is_delimiter, lower};

/// A character of a statement, with its line. A line feed ends a statement.
#[derive(Clone, Copy)]
pub struct Character {
    pub byte: u8,
    pub line: u32,
}

pub fn is_blank(byte: u8) -> bool
    ensures { result ≡ is_blank byte }
{
    byte == b' ' || byte == b'\t'
}

pub fn is_letter(byte: u8) -> bool
    ensures { result ≡ is_letter byte }
{
    b'a' <= byte && byte <= b'z' || b'A' <= byte && byte <= b'Z'
}

pub fn is_digit(byte: u8) -> bool
    ensures { result ≡ is_digit byte }
{
    b'0' <= byte && byte <= b'9'
}

/// Whether a word may go on with it.
pub fn is_name(byte: u8) -> bool
    ensures { result ≡ is_name byte }
{
    is_letter(byte) || is_digit(byte) || byte == b'_'
}

/// Whether it begins a character literal.
pub fn is_delimiter(byte: u8) -> bool
    ensures { result ≡ is_delimiter byte }
{
    byte == b'\'' || byte == b'"'
}

/// The small letter of a capital; other bytes stay.
pub fn lower(byte: u8) -> u8
    ensures { result ≡ lower byte }
{
    if b'A' <= byte && byte <= b'Z' {
        byte + 32
    } else {
        byte
    }
}
