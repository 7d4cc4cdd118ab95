//! Bytes as numbers, and the place of a part in a text.
ghost use Rattle.std.specs.Prelude.{◌≡◌, ◌≤◌, max, length, IfOk};
ghost use Rattle.a95_base.specs.Text.{first_place, code_of, char_of};

use a95_base::Bytes;
use memchr::memmem;
use std::alloc::{AllocError, Global};

/// The first place of a part in a text, or 0.
pub fn first_place(text: &[u8], part: &[u8]) -> usize
    ensures place { result ≡ first_place text.now part.now }
    ensures within { result ≤ max 1 (length text.now) }
{
    match memmem::find(text, part) {
        Some(at) => at + 1,
        None => 0,
    }
}

/// The number of the byte of a text of one byte.
pub fn code_of(text: &[u8]) -> Option<i32>
    ensures { result ≡ code_of text.now }
{
    match text {
        [byte] => Some(i32::from(*byte)),
        _ => None,
    }
}

/// The text of one byte with this number.
pub fn char_of(alloc: Global, code: i64) -> Result<Option<Bytes>, AllocError>
    ensures { IfOk result (λ text. text ≡ char_of code) }
{
    match u8::try_from(code) {
        Ok(byte) => Ok(Some(Bytes::from_slice(alloc, &[byte])?)),
        Err(_) => Ok(None),
    }
}
