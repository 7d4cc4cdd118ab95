//! Blanks at the ends of a text.
ghost use Rattle.std.specs.Prelude.{◌≡◌, ◌≤◌, length, IfOk};
ghost use Rattle.a95_base.specs.Text.{trim, trim_front, adjust_left, adjust_right};

use a95_base::{Bytes, fit};
use std::alloc::{AllocError, Global};

/// TRIM.
pub fn without_end_blanks(text: &[u8]) -> &[u8]
    ensures text { result.now ≡ trim text.now }
    ensures within { length result.now ≤ length text.now }
{
    let mut length = text.len();
    while length > 0 && text[length - 1] == b' ' {
        length -= 1;
    }
    &text[..length]
}

fn without_front_blanks(text: &[u8]) -> &[u8]
    ensures { result.now ≡ trim_front text.now }
{
    let mut start = 0;
    while start < text.len() && text[start] == b' ' {
        start += 1;
    }
    &text[start..]
}

/// The leading blanks moved to the end.
pub fn adjust_left(alloc: Global, text: &[u8]) -> Result<Bytes, AllocError>
    ensures { IfOk result (λ made. made ≡ adjust_left text.now) }
{
    fit(alloc, without_front_blanks(text), text.len()).map_err(|_| AllocError)
}

/// The trailing blanks moved to the front.
pub fn adjust_right(alloc: Global, text: &[u8]) -> Result<Bytes, AllocError>
    ensures { IfOk result (λ made. made ≡ adjust_right text.now) }
{
    let kept = without_end_blanks(text);
    let mut bytes = Vec::with_capacity(alloc, text.len())?;
    bytes.resize(text.len() - kept.len(), b' ')?;
    bytes.extend_from_slice(kept)?;
    Ok(Bytes::from_vec(bytes))
}
