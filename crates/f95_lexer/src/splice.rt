//! The lines of a text spliced into one run of characters, without comments and continuations.
ghost use Rattle.std.specs.Prelude.{◌≡◌, ◌+◌, ◌-◌, ◌++◌, ◌∷◌, ◌<◌, ◌≤◌, ◌^◌, [], length, IfOk, OnOk};
ghost use Rattle.f95_lexer.specs.Continuation.{opened, kept, character};
ghost use Rattle.f95_lexer.specs.Characters.{from_blank, is_comment, is_empty};
ghost use Rattle.a95_base.specs.Breaks.{broken_at};
ghost use Rattle.f95_lexer.specs.Splicing.{Spliced, scan, scanned, begun, line_read, behind, fortieth, spliced};
ghost use Rattle.f95_lexer.specs.Splicing.{line_breaks, too_long, unfinished};
ghost use Rattle.f95_lexer.specs.Lines.{text_lines};

use crate::character::{Character, is_blank, is_delimiter};
use crate::limits::{LONGEST_LINE, TOO_MANY_LINES};
use a95_base::{Break, Rule};
use bstr::{ByteSlice, Lines};
use std::alloc::{AllocError, Global};

/// How a line ends.
#[derive(Clone, Copy)]
pub enum Mode {
    /// Nothing goes on.
    Fresh,
    /// The statement goes on behind the `&` of that line; its 40th continuation line is `left` lines ahead.
    Goes { line: u32, left: u8 },
    /// A text with that delimiter goes on.
    Inside { delimiter: u8, line: u32, left: u8 },
}

/// What a character leaves of the rest of its line.
#[derive(Clone, Copy)]
pub enum Next {
    /// The line ends so.
    Ends(Mode),
    /// The rest is outside of texts or inside of one, so many lines ahead of the 40th continuation line.
    Goes(Option<u8>, u8),
}

/// The characters and the broken rules so far.
#[derive(Drop)]
pub struct Splicer {
    pub text: Vec<Character>,
    pub breaks: Vec<Break>,
}

/// The characters from the first that is no blank.
fn from_blank(mut text: &[u8]) -> &[u8]
    ensures { result.now ≡ from_blank text.now }
{
    while let [c, rest @ ..] = text {
        if !is_blank(*c) {
            break;
        }
        text = rest;
    }
    text
}

/// Whether nothing but blanks and a comment stands there.
fn is_comment(text: &[u8]) -> bool
    ensures { result ≡ is_comment (from_blank text.now) }
{
    match from_blank(text) {
        [] => true,
        [c, ..] => *c == b'!',
    }
}

/// Whether nothing but blanks stands there.
fn is_empty(text: &[u8]) -> bool
    ensures { result ≡ is_empty (from_blank text.now) }
{
    from_blank(text).is_empty()
}

fn opened(c: u8) -> Option<u8>
    ensures { result ≡ opened c }
{
    if is_delimiter(c) { Some(c) } else { None }
}

fn kept(delimiter: u8, c: u8) -> Option<u8>
    ensures { result ≡ kept delimiter c }
{
    if c == delimiter {
        None
    } else {
        Some(delimiter)
    }
}

impl Splicer {
    fn put(&mut self, byte: u8, line: u32) -> Result<(), AllocError>
        ensures text { OnOk result (self.new.text.items ≡ self.old.text.items ++ character byte line ∷ []) }
        ensures breaks { self.new.breaks.items ≡ self.old.breaks.items }
    {
        self.text.push(Character { byte, line })?;
        Ok(())
    }

    fn note(&mut self, line: u32, rule: Rule) -> Result<(), AllocError>
        ensures breaks { OnOk result (self.new.breaks.items ≡ self.old.breaks.items ++ broken_at line rule.0 ∷ []) }
        ensures text { self.new.text.items ≡ self.old.text.items }
    {
        self.breaks.push(Break { line, rule: rule.0 })?;
        Ok(())
    }

    /// A character outside of texts, before `more`.
    fn outside(&mut self, line: u32, left: u8, c: u8, more: &[u8]) -> Result<Next, AllocError>
        ensures { IfOk result (λ next. behind self.old.text.items self.old.breaks.items (scan None line left (c ∷ more.now))
            ≡ behind self.new.text.items self.new.breaks.items (scanned next line more.now)) }
    {
        if c == b'!' {
            self.put(b'\n', line)?;
            return Ok(Next::Ends(Mode::Fresh));
        }
        if c == b'&' && is_comment(more) {
            return Ok(Next::Ends(Mode::Goes { line, left }));
        }
        if c == b';' {
            self.put(b'\n', line)?;
            return Ok(Next::Goes(None, TOO_MANY_LINES));
        }
        self.put(c, line)?;
        Ok(Next::Goes(opened(c), left))
    }

    /// A character of a text with that delimiter, before `more`.
    fn within(
        &mut self,
        delimiter: u8,
        line: u32,
        left: u8,
        c: u8,
        more: &[u8],
    ) -> Result<Next, AllocError>
        ensures { IfOk result
            (λ next. behind self.old.text.items self.old.breaks.items (scan (Some delimiter) line left (c ∷ more.now))
            ≡ behind self.new.text.items self.new.breaks.items (scanned next line more.now)) }
    {
        if c == b'&' && is_empty(more) {
            return Ok(Next::Ends(Mode::Inside {
                delimiter,
                line,
                left,
            }));
        }
        self.put(c, line)?;
        Ok(Next::Goes(kept(delimiter, c), left))
    }

    /// The rest of a line, outside of texts or inside of one.
    fn scan(
        &mut self,
        mut inside: Option<u8>,
        line: u32,
        mut left: u8,
        text: &[u8],
    ) -> Result<Mode, AllocError>
        ensures { IfOk result (λ m. behind self.old.text.items self.old.breaks.items (scan inside line left text.now)
            ≡ record { text = self.new.text.items; breaks = self.new.breaks.items; mode = m }) }
    {
        let mut rest = text;
        while let [c, more @ ..] = rest {
            let next = match inside {
                None => self.outside(line, left, *c, more)?,
                Some(delimiter) => self.within(delimiter, line, left, *c, more)?,
            };
            match next {
                Next::Ends(mode) => return Ok(mode),
                Next::Goes(open, ahead) => {
                    inside = open;
                    left = ahead;
                }
            }
            rest = more;
        }
        if inside.is_some() {
            self.note(line, Rule::OPEN_TEXT)?;
        }
        self.put(b'\n', line)?;
        Ok(Mode::Fresh)
    }

    /// A line when nothing goes on.
    fn fresh(&mut self, line: u32, first: u8, rest: &[u8], text: &[u8]) -> Result<Mode, AllocError>
        requires { text.now ≡ first ∷ rest.now }
        ensures { IfOk result (λ m. behind self.old.text.items self.old.breaks.items (begun Mode.Fresh line first rest.now)
            ≡ record { text = self.new.text.items; breaks = self.new.breaks.items; mode = m }) }
    {
        if first != b'&' {
            return self.scan(None, line, TOO_MANY_LINES, text);
        }
        self.note(line, Rule::BROKEN_CONTINUATION)?;
        if is_comment(rest) {
            return Ok(Mode::Goes {
                line,
                left: TOO_MANY_LINES,
            });
        }
        self.scan(None, line, TOO_MANY_LINES, rest)
    }

    /// Notes the 40th continuation line, and says how many lines ahead it is from the next.
    fn counted(&mut self, line: u32, left: u8) -> Result<u8, AllocError>
        ensures left { IfOk result (λ next. next ≡ left - 1) }
        ensures breaks { OnOk result (self.new.breaks.items ≡ self.old.breaks.items ++ fortieth line left) }
        ensures text { self.new.text.items ≡ self.old.text.items }
    {
        if left == 1 {
            self.note(line, Rule::TOO_MANY_CONTINUATIONS)?;
        }
        Ok(left.saturating_sub(1))
    }

    /// A continuation line of a statement.
    fn goes(
        &mut self,
        from: u32,
        line: u32,
        left: u8,
        first: u8,
        rest: &[u8],
        text: &[u8],
    ) -> Result<Mode, AllocError>
        requires { text.now ≡ first ∷ rest.now }
        ensures { IfOk result
            (λ m. behind self.old.text.items self.old.breaks.items (begun (Mode.Goes from left) line first rest.now)
            ≡ record { text = self.new.text.items; breaks = self.new.breaks.items; mode = m }) }
    {
        let left = self.counted(line, left)?;
        if first != b'&' {
            self.put(b' ', line)?;
            return self.scan(None, line, left, text);
        }
        if is_comment(rest) {
            self.note(line, Rule::BROKEN_CONTINUATION)?;
            return Ok(Mode::Goes { line, left });
        }
        self.scan(None, line, left, rest)
    }

    /// A line on which a text goes on that the line `from` left open.
    fn inside(
        &mut self,
        delimiter: u8,
        from: u32,
        line: u32,
        left: u8,
        first: u8,
        rest: &[u8],
        text: &[u8],
    ) -> Result<Mode, AllocError>
        requires { text.now ≡ first ∷ rest.now }
        ensures { IfOk result
            (λ m. behind self.old.text.items self.old.breaks.items (begun (Mode.Inside delimiter from left) line first rest.now)
            ≡ record { text = self.new.text.items; breaks = self.new.breaks.items; mode = m }) }
    {
        let left = self.counted(line, left)?;
        if first != b'&' {
            self.note(from, Rule::BROKEN_CONTINUATION)?;
            self.put(b'\n', line)?;
            return self.scan(None, line, left, text);
        }
        if is_empty(rest) {
            self.note(line, Rule::BROKEN_CONTINUATION)?;
            return Ok(Mode::Inside {
                delimiter,
                line,
                left,
            });
        }
        self.scan(Some(delimiter), line, left, rest)
    }

    /// Notes a line of more than 132 characters.
    fn measured(&mut self, line: u32, text: &[u8]) -> Result<(), AllocError>
        ensures breaks { OnOk result (self.new.breaks.items ≡ self.old.breaks.items ++ too_long line text.now) }
        ensures text { self.new.text.items ≡ self.old.text.items }
    {
        if text.len() > LONGEST_LINE {
            self.note(line, Rule::LINE_TOO_LONG)?;
        }
        Ok(())
    }

    /// Notes a continuation behind the last line.
    fn finished(&mut self, mode: Mode) -> Result<(), AllocError>
        ensures breaks { OnOk result (self.new.breaks.items ≡ self.old.breaks.items ++ unfinished mode) }
        ensures text { self.new.text.items ≡ self.old.text.items }
    {
        match mode {
            Mode::Fresh => Ok(()),
            Mode::Goes { line, .. } | Mode::Inside { line, .. } => self.note(
                line,
                Rule::BROKEN_CONTINUATION,
            ),
        }
    }

    /// The next line, without the blanks at its front.
    fn read_line(&mut self, mode: Mode, line: u32, text: &[u8]) -> Result<Mode, AllocError>
        ensures { IfOk result (λ m. behind self.old.text.items self.old.breaks.items (line_read mode line text.now)
            ≡ record { text = self.new.text.items; breaks = self.new.breaks.items; mode = m }) }
    {
        let [first, rest @ ..] = text else {
            return Ok(mode);
        };
        if *first == b'!' {
            return Ok(mode);
        }
        match mode {
            Mode::Fresh => self.fresh(line, *first, rest, text),
            Mode::Goes { line: from, left } => self.goes(from, line, left, *first, rest, text),
            Mode::Inside {
                delimiter,
                line: from,
                left,
            } => self.inside(delimiter, from, line, left, *first, rest, text),
        }
    }
}

/// The lines of a text, without their ends.
#[tactic(auto, using(crate::proofs::Cutting::lines_are))]
fn text_lines(bytes: &[u8]) -> Lines<'_>
    ensures lines { result ≡ text_lines bytes.now }
    ensures len { length result ≤ length bytes.now }
{
    bytes.lines()
}

/// The lines of a text spliced, with the rules that they break.
pub fn splice(alloc: Global, bytes: &[u8]) -> Result<Splicer, AllocError>
    requires { length bytes.now ≤ 1048576 }
    ensures text { IfOk result (λ s. s.text.items ≡ (spliced bytes.now).text) }
    ensures breaks { IfOk result (λ s. s.breaks.items ≡ line_breaks bytes.now) }
{
    let mut splicer = Splicer {
        text: Vec::new(alloc),
        breaks: Vec::new(alloc),
    };
    let mut mode = Mode::Fresh;
    let mut line = 1u32;
    for text in text_lines(bytes) {
        splicer.measured(line, text)?;
        mode = splicer.read_line(mode, line, from_blank(text))?;
        line += 1;
    }
    splicer.finished(mode)?;
    Ok(splicer)
}
