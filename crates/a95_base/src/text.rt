//! Comparing and fitting CHARACTER values. What each call gives stands in `specs/Text.antt`.
ghost use Rattle.std.specs.Prelude.{◌≡◌, [], IfOk};
ghost use Rattle.a95_base.specs.Text.{fit, compare_padded};

use crate::bytes::Bytes;
use crate::source::Memory;
use std::alloc::Global;
use std::cmp::Ordering;

/// The order of two texts by their bytes, the shorter padded with blanks. Reads both once, and takes no memory.
pub fn compare_padded(a: &[u8], b: &[u8]) -> Ordering
    ensures { result ≡ compare_padded a.now b.now }
{
    let common = a.len().min(b.len());
    for i in 0..common {
        if a[i] != b[i] {
            return a[i].cmp(&b[i]);
        }
    }
    if common < a.len() {
        return against_blanks(&a[common..]);
    }
    blanks_against(&b[common..])
}

// The order of a text and blanks.
fn against_blanks(text: &[u8]) -> Ordering
    ensures { result ≡ compare_padded text.now [] }
{
    for byte in text {
        if *byte != b' ' {
            return byte.cmp(&b' ');
        }
    }
    Ordering::Equal
}

// The order of blanks and a text.
fn blanks_against(text: &[u8]) -> Ordering
    ensures { result ≡ compare_padded [] text.now }
{
    for byte in text {
        if *byte != b' ' {
            return b' '.cmp(byte);
        }
    }
    Ordering::Equal
}

/// The text cut to so many bytes, or padded with blanks on the right.
pub fn fit(alloc: Global, text: &[u8], len: usize) -> Result<Bytes, Memory>
    ensures { IfOk result (λ made. made ≡ fit len text.now) }
{
    let kept = len.min(text.len());
    let mut bytes = Vec::with_capacity(alloc, len)?;
    bytes.extend_from_slice(&text[..kept])?;
    bytes.resize(len, b' ')?;
    Ok(Bytes::from_vec(bytes))
}
