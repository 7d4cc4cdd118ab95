//! The program of a text, or the line at which bytes are refused.
ghost use Rattle.std.specs.Prelude.{◌≡◌, ◌+◌, ◌-◌, ◌^◌, ◌<◌, ◌≤◌, min, length, take, true, MatchOption, IfOk, IfErr};
ghost use Rattle.loop_tree.specs.Program.{ReadsText};
ghost use Rattle.loop_text.specs.declared.reading.NoText.TheVariants as no_text;
ghost use Rattle.loop_text.specs.Refused.{is_one_line, IsLineOf, OneLine, OneProgram, Refuses};

use crate::atoms::skip;
use crate::reader::Reader;
use a95_base::Line;
use loop_tree::LoopProgram;
use std::alloc::{AllocError, Global};
use thiserror::Error;

/// Why bytes give no program.
#[derive(Clone, Copy, Debug, PartialEq, Eq, Error)]
pub enum NoText {
    /// They are no text of LoopC: the lines before this one begin a text, and none goes on with it.
    #[error("no text of LoopC goes on with line {}", .line.0)]
    At { line: Line },
    #[error("out of memory")]
    Memory,
}

impl From<AllocError> for NoText {
    ghost from_gives = { λ _ e. e ≡ no_text.Memory };

    fn from(_: AllocError) -> Self {
        NoText::Memory
    }
}

/// The program that a text is of.
pub fn read(alloc: Global, bytes: &[u8]) -> Result<LoopProgram, NoText>
    ensures found { IfOk result (λ program. ReadsText bytes.now program) }
    ensures refused { IfErr result (Refuses bytes.now) }
{
    let mut reader = Reader::new(alloc);
    let mut rest = bytes;
    let mut count = 0_usize;
    while let Some(end) = line_end(rest) {
        if !reader.take(alloc, prefix(rest, end))? {
            return Err(refused_behind(count));
        }
        rest = skip(rest, end + 1);
        count += 1;
    }
    if !rest.is_empty() {
        return Err(refused_behind(count));
    }
    if !reader.is_text() {
        return Err(refused_behind(count));
    }
    Ok(LoopProgram::new(reader.into_functions()))
}

/// No two programs have one text.
pub fn one_program()
    ensures { OneProgram }
{}

/// Bytes that are no text are refused at one line only.
pub fn one_line()
    ensures { OneLine }
{}

/// The place of the first line feed.
fn line_end(rest: &[u8]) -> Option<usize>
    ensures { MatchOption result (is_one_line rest.now ≡ true) (IsLineOf rest.now) }
{
    for (place, byte) in rest.iter().enumerate() {
        if *byte == b'\n' {
            return Some(place);
        }
    }
    None
}

/// The bytes before a place.
fn prefix(bytes: &[u8], end: usize) -> &[u8]
    requires { end ≤ length bytes.now }
    ensures { result.now ≡ take end bytes.now }
{
    &bytes[..end]
}

/// The answer where so many lines were read, and none goes on with the next.
fn refused_behind(count: usize) -> NoText
    requires { count < 2 ^ 64 - 1 }
    ensures { result ≡ no_text.At (record { 0 = min (count + 1) (2 ^ 32 - 1) }) }
{
    let line = if count < 0xffff_fffe {
        count as u32 + 1
    } else {
        0xffff_ffff
    };
    NoText::At { line: Line(line) }
}
