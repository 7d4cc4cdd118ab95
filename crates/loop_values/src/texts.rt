//! The built-ins on texts. Places are counted from 1.
ghost use Rattle.std.specs.Prelude.{◌≡◌, ◌≤◌, ◌++◌, pos, length, IfOk};
ghost use Rattle.std.specs.Option.{ok_or};
ghost use Rattle.a95_base.specs.Text.{compare_padded, first_place, fit, code_of, char_of, part_of, trim};
ghost use Rattle.loop_tree.specs.declared.stuck.StuckState.TheVariants.{OutsideText, NoByte};
ghost use Rattle.loop_tree.specs.Values.{order_number, sub, replaced, fitted};
ghost use Rattle.loop_heap.specs.Halts.{Yields};

use a95_base::{Bytes, compare_padded};
use loop_heap::Halt;
use loop_tree::StuckState;
use std::alloc::{AllocError, Global};
use std::cmp::Ordering;
use text_functions::{char_of, code_of, first_place, without_end_blanks};

/// The first place of a part in a text, or 0.
pub fn index(text: &[u8], part: &[u8]) -> i64
    ensures { result ≡ pos (first_place text.now part.now) }
{
    first_place(text, part) as i64
}

/// The byte of a text of one byte. `OutsideText`: the text has another length.
pub fn code(text: &[u8]) -> Result<i64, StuckState>
    ensures { result ≡ ok_or (code_of text.now) OutsideText }
{
    match code_of(text) {
        Some(code) => Ok(i64::from(code)),
        None => Err(StuckState::OutsideText),
    }
}

/// The text of one byte. `NoByte`: the number is outside 0 to 255.
pub fn char(alloc: Global, code: i64) -> Result<Bytes, Halt>
    ensures { Yields (ok_or (char_of code) NoByte) result }
{
    match char_of(alloc, code)? {
        Some(text) => Ok(text),
        None => Err(Halt::Stuck(StuckState::NoByte)),
    }
}

/// The order of two texts, the shorter padded with blanks: -1, 0 or 1.
pub fn compare(a: &[u8], b: &[u8]) -> i64
    ensures { result ≡ order_number (compare_padded a.now b.now) }
{
    match compare_padded(a, b) {
        Ordering::Less => -1,
        Ordering::Equal => 0,
        Ordering::Greater => 1,
    }
}

/// One text behind another.
pub fn join(alloc: Global, front: &[u8], back: &[u8]) -> Result<Bytes, AllocError>
    ensures { IfOk result (λ text. text ≡ front.now ++ back.now) }
{
    let mut bytes = Vec::with_capacity(alloc, front.len())?;
    bytes.extend_from_slice(front)?;
    bytes.extend_from_slice(back)?;
    Ok(Bytes::from_vec(bytes))
}

/// The bytes from one place to another, none where the first is greater. `OutsideText`: a place is outside the text.
pub fn sub(alloc: Global, text: &[u8], from: i64, to: i64) -> Result<Bytes, Halt>
    ensures { Yields (sub text.now from to) result }
{
    if to < from {
        return Ok(Bytes::new(alloc));
    }
    if from < 1 || to as usize > text.len() {
        return Err(Halt::Stuck(StuckState::OutsideText));
    }
    Ok(part(alloc, text, from as usize, to as usize)?)
}

fn part(alloc: Global, text: &[u8], from: usize, to: usize) -> Result<Bytes, AllocError>
    requires first { 1 ≤ from }
    requires ordered { from ≤ to }
    requires within { to ≤ length text.now }
    ensures { IfOk result (λ made. made ≡ part_of text.now from to) }
{
    let front = &text[..to];
    Bytes::from_slice(alloc, &front[from - 1..])
}

/// The text with the bytes from a place on replaced. `OutsideText`: a place is outside the text.
pub fn over(alloc: Global, text: &[u8], from: i64, new: &[u8]) -> Result<Bytes, Halt>
    ensures { Yields (replaced text.now from new.now) result }
{
    if new.is_empty() {
        return Ok(Bytes::from_slice(alloc, text)?);
    }
    if from < 1 || new.len() > text.len() || from as usize - 1 > text.len() - new.len() {
        return Err(Halt::Stuck(StuckState::OutsideText));
    }
    let start = from as usize - 1;
    let mut bytes = Vec::with_capacity(alloc, text.len())?;
    bytes.extend_from_slice(&text[..start])?;
    bytes.extend_from_slice(new)?;
    bytes.extend_from_slice(&text[start + new.len()..])?;
    Ok(Bytes::from_vec(bytes))
}

/// The text cut to so many bytes, or padded with blanks. `OutsideText`: the number is negative.
pub fn fit(alloc: Global, text: &[u8], length: i64) -> Result<Bytes, Halt>
    ensures { Yields (fitted text.now length) result }
{
    if length < 0 {
        return Err(Halt::Stuck(StuckState::OutsideText));
    }
    Ok(fit_to(alloc, text, length as usize)?)
}

fn fit_to(alloc: Global, text: &[u8], length: usize) -> Result<Bytes, AllocError>
    ensures { IfOk result (λ made. made ≡ fit length text.now) }
{
    a95_base::fit(alloc, text, length).map_err(|_| AllocError)
}

/// The text without the blanks at its end.
pub fn trim(alloc: Global, text: &[u8]) -> Result<Bytes, AllocError>
    ensures { IfOk result (λ made. made ≡ trim text.now) }
{
    Bytes::from_slice(alloc, without_end_blanks(text))
}
