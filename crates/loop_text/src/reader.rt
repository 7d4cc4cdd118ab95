//! Reads a text line after line into the functions of its program, as `specs/Reader.antt` says.
ghost use Rattle.std.specs.Prelude.{◌≡◌, [], ◌∷◌, ◌++◌, length, filter_map, IfOk, OnOk};
ghost use Rattle.std.specs.Str.{bytes_eq};
ghost use Rattle.loop_tree.specs.Text.{spell, function_head};
ghost use Rattle.loop_text.specs.Reader.{nothing_read, Took, letters_on, letter_at, start_with, begin, may_begin, may_stand};
ghost use Rattle.loop_text.specs.Reader.{add_row, open_level, else_in, close_in, closed, is_loop, in_loop, add_line, go_on, accept};
ghost use Rattle.loop_text.specs.Reader.{is_text};

use crate::atoms::{number, skip};
use crate::guess::guess;
use crate::level::{Level, LevelKind};
use a95_base::Stack;
use loop_tree::{CodeLine, ControlRow, Function, Letter, Row, Stmt};
use loop_writer::put_head;
use sqlite_items::{Boxed, Items};
use std::alloc::{AllocError, Global};
use std::fmt::Write;
use std::mem;

/// What was read of a text.
#[derive(Drop)]
pub struct Reader {
    /// The first line was read.
    started: bool,
    /// A function is open.
    within: bool,
    /// The functions that were closed.
    functions: Items<Function>,
    /// Of the open function: its parameters, the braces that are open in it, innermost first, and the statements
    /// read in the innermost.
    parameters: Items<Letter>,
    levels: Stack<Level>,
    body: Items<Stmt>,
}

impl Reader {
    /// Nothing was read.
    pub fn new(alloc: Global) -> Reader
        ensures { result ≡ nothing_read }
    {
        Reader {
            started: false,
            within: false,
            functions: Items::new(alloc),
            parameters: Items::new(alloc),
            levels: Stack::new(alloc),
            body: Items::new(alloc),
        }
    }

    /// Takes one more line, if a text may go on with it. After an answer of false the reader is of no use.
    #[tactic(auto, unfolding(crate::specs::Reader::accept))]
    pub fn take(&mut self, alloc: Global, bytes: &[u8]) -> Result<bool, AllocError>
        ensures { IfOk result (λ ok. Took (accept self.old bytes.now) ok self.new) }
    {
        if !self.started {
            return Ok(self.start(bytes));
        }
        if self.within {
            let line = guess(alloc, bytes)?;
            return self.go_on(alloc, bytes, line);
        }
        let parameters = letters(alloc, bytes)?;
        self.begin(alloc, bytes, parameters)
    }

    /// What was read is a whole text.
    pub fn is_text(&self) -> bool
        ensures { result ≡ is_text self.now }
    {
        if self.within {
            false
        } else {
            !self.functions.is_empty()
        }
    }

    pub fn into_functions(self) -> Items<Function>
        ensures { result ≡ self.functions }
    {
        self.functions
    }

    fn start(&mut self, bytes: &[u8]) -> bool
        ensures { Took (start_with self.old bytes.now) result self.new }
    {
        if same(bytes, b"/* LoopC 1 */") {
            self.started = true;
            return true;
        }
        false
    }

    /// Begins a function.
    fn begin(
        &mut self,
        alloc: Global,
        bytes: &[u8],
        parameters: Items<Letter>,
    ) -> Result<bool, AllocError>
        ensures { IfOk result (λ ok. Took (begin self.old bytes.now parameters) ok self.new) }
    {
        if !is_head(alloc, self.functions.len(), parameters.as_slice(), bytes)? {
            return Ok(false);
        }
        if !may_begin(self.functions.len(), parameters.len()) {
            return Ok(false);
        }
        self.within = true;
        self.parameters = parameters;
        Ok(true)
    }

    #[tactic(auto, unfolding(crate::specs::Reader::go_on))]
    fn go_on(&mut self, alloc: Global, bytes: &[u8], line: CodeLine) -> Result<bool, AllocError>
        ensures { IfOk result (λ ok. Took (go_on self.old bytes.now line) ok self.new) }
    {
        if !is_line(alloc, &line, bytes)? {
            return Ok(false);
        }
        self.add_line(alloc, line)
    }

    #[tactic(auto, unfolding(crate::specs::Reader::add_line))]
    fn add_line(&mut self, alloc: Global, line: CodeLine) -> Result<bool, AllocError>
        ensures { IfOk result (λ ok. Took (add_line self.old line) ok self.new) }
    {
        match line {
            CodeLine::Row(row) => self.add_row(row),
            CodeLine::If(a) => self.open_level(alloc, LevelKind::If(a)),
            CodeLine::Else => self.begin_else(alloc),
            CodeLine::ForUp(k, bound) => self.open_level(alloc, LevelKind::ForUp(k, bound)),
            CodeLine::ForDown(k, bound) => self.open_level(alloc, LevelKind::ForDown(k, bound)),
            CodeLine::Forever => self.open_level(alloc, LevelKind::Forever),
            CodeLine::Close => {
                self.close(alloc)?;
                Ok(true)
            }
        }
    }

    #[tactic(auto, unfolding(crate::specs::Reader::add_row))]
    fn add_row(&mut self, row: Row) -> Result<bool, AllocError>
        ensures { IfOk result (λ ok. Took (add_row self.old row) ok self.new) }
    {
        if !may_stand(&row, &self.levels) {
            return Ok(false);
        }
        self.body.push(Stmt::Row(row))?;
        Ok(true)
    }

    #[tactic(auto, unfolding(crate::specs::Reader::open_level))]
    fn open_level(&mut self, alloc: Global, kind: LevelKind) -> Result<bool, AllocError>
        ensures { IfOk result (λ ok. Took (open_level self.old kind) ok self.new) }
    {
        if self.levels.len() >= 999 {
            return Ok(false);
        }
        let outer = mem::replace(&mut self.body, Items::new(alloc));
        self.levels.push(Level { kind, outer })?;
        Ok(true)
    }

    /// The part behind ELSE begins.
    fn begin_else(&mut self, alloc: Global) -> Result<bool, AllocError>
        ensures { IfOk result (λ ok. Took (else_in self.old self.old.levels) ok self.new) }
    {
        let Some(Level { kind, outer }) = self.levels.pop() else {
            return Ok(false);
        };
        let LevelKind::If(a) = kind else {
            return Ok(false);
        };
        let first = mem::replace(&mut self.body, Items::new(alloc));
        let kind = LevelKind::Else(a, first);
        self.levels.push(Level { kind, outer })?;
        Ok(true)
    }

    /// The innermost brace is closed.
    fn close(&mut self, alloc: Global) -> Result<(), AllocError>
        ensures { OnOk result (self.new ≡ close_in self.old self.old.levels) }
    {
        let body = mem::replace(&mut self.body, Items::new(alloc));
        match self.levels.pop() {
            Some(Level { kind, outer }) => {
                self.body = outer;
                self.body.push(closed(alloc, kind, body)?)?;
            }
            None => {
                let parameters = mem::replace(&mut self.parameters, Items::new(alloc));
                self.functions.push(Function { parameters, body })?;
                self.within = false;
            }
        }
        Ok(())
    }
}

fn closed(alloc: Global, kind: LevelKind, body: Items<Stmt>) -> Result<Stmt, AllocError>
    ensures { IfOk result (λ s. s ≡ closed kind body) }
{
    match kind {
        LevelKind::If(a) => Ok(Stmt::If(a, body)),
        LevelKind::Else(a, first) => Ok(Stmt::IfElse(a, first, Boxed::new(alloc, body)?)),
        LevelKind::ForUp(k, bound) => Ok(Stmt::ForUp(k, bound, body)),
        LevelKind::ForDown(k, bound) => Ok(Stmt::ForDown(k, bound, body)),
        LevelKind::Forever => Ok(Stmt::Forever(body)),
    }
}

/// A break or a continue stands in a loop.
fn may_stand(row: &Row, levels: &Stack<Level>) -> bool
    ensures { result ≡ may_stand row.now levels.now }
{
    match row {
        Row::Control(ControlRow::Break | ControlRow::Continue) => in_loop(levels),
        _ => true,
    }
}

/// A loop is open.
#[tactic(auto, using(crate::proofs::Levels::in_loop_reversed))]
fn in_loop(levels: &Stack<Level>) -> bool
    ensures { result ≡ in_loop levels.now }
{
    some_loop(levels.as_slice())
}

fn some_loop(levels: &[Level]) -> bool
    ensures { result ≡ in_loop levels.now }
{
    levels.iter().any(|level| level.kind.is_loop())
}

/// A further function may begin: function 0 has no parameters, and numbers fit.
fn may_begin(functions: usize, parameters: usize) -> bool
    ensures { result ≡ may_begin functions parameters }
{
    functions < 1 << 32 && parameters <= 1 << 32 && (functions > 0 || parameters == 0)
}

fn same(a: &[u8], b: &[u8]) -> bool
    ensures { result ≡ bytes_eq a.now b.now }
{
    a == b
}

/// The bytes are the line's text.
fn is_line(alloc: Global, line: &CodeLine, bytes: &[u8]) -> Result<bool, AllocError>
    ensures { IfOk result (λ ok. ok ≡ bytes_eq bytes.now (spell line.now)) }
{
    let mut out = String::new(alloc);
    write!(out, "{line}")?;
    Ok(same(bytes, out.as_bytes()))
}

/// The bytes begin the function of this number.
fn is_head(
    alloc: Global,
    number: usize,
    parameters: &[Letter],
    bytes: &[u8],
) -> Result<bool, AllocError>
    ensures { IfOk result (λ ok. ok ≡ bytes_eq bytes.now (function_head number parameters.now)) }
{
    let mut out = String::new(alloc);
    put_head(&mut out, number, parameters)?;
    Ok(same(bytes, out.as_bytes()))
}

/// The letters behind the number of a function.
fn letters(alloc: Global, bytes: &[u8]) -> Result<Items<Letter>, AllocError>
    ensures { IfOk result (λ all. all ≡ letters_on bytes.now) }
{
    let (_, rest) = number(skip(bytes, 6));
    let all = letters_in(alloc, rest)?;
    Ok(Items::from_vec(all))
}

fn letters_in(alloc: Global, bytes: &[u8]) -> Result<Vec<Letter>, AllocError>
    ensures { IfOk result (λ all. all.items ≡ filter_map letter_at bytes.now) }
{
    bytes
        .iter()
        .filter_map(|byte| letter_at(*byte))
        .collect(alloc)
}

fn letter_at(byte: u8) -> Option<Letter>
    ensures { result ≡ letter_at byte }
{
    match byte {
        b'i' => Some(Letter::Int),
        b's' => Some(Letter::Text),
        b'b' => Some(Letter::Ints),
        b'c' => Some(Letter::Texts),
        _ => None,
    }
}
