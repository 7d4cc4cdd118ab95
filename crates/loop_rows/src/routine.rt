//! Functions made ready to run.
ghost use Rattle.std.specs.Prelude.{◌≡◌, ◌∷◌, ◌+◌, ◌<◌, ◌^◌, [], drop, OnSome, length, IfOk, OnOk, MatchOption};
ghost use Rattle.loop_tree.specs.Lines.{lines_of};
ghost use Rattle.a95_base.specs.Lists.{rest_of};
ghost use Rattle.loop_tree.specs.Machine.{exits, exit_of, first_exit};
ghost use Rattle.loop_rows.specs.Exits.{opened, passed, first_exit_of, table_of};

use a95_base::Stack;
use loop_tree::{BlockRow, CodeLine, ControlRow, Function, IntValue, Letter, Row};
use sqlite_items::Items;
use std::alloc::{AllocError, Global};
use std::marker::Model;

/// Where the two innermost braces that are open at a line close, as places in the function's lines. A place behind
/// all lines stands for none.
#[derive(Clone, Copy)]
pub struct Exit {
    own: usize,
    outer: usize,
}

/// A function made ready to run: its lines, and for each place among them where the braces that are open there close.
/// Contracts see the function.
#[derive(Drop)]
pub struct Routine {
    function: Function,
    lines: Items<CodeLine>,
    exits: Items<Exit>,
    // For each place, whether the lines from there to the next brace that closes are rows that a sweep takes. When a sweep
    // is tried rests on it, and nothing else.
    straight: Items<bool>,
}

impl Model for Routine {
    ghost use Rattle.std.specs.Prelude.{◌≡◌};
    ghost use Rattle.loop_tree.specs.declared.tree.Function.{Function};
    ghost use Rattle.loop_tree.specs.Lines.{lines_of};
    ghost use Rattle.loop_rows.specs.Exits.{table_of};
    ghost use Rattle.loop_tree.specs.contracts.tree.Stmt as stmt;
    ghost use Rattle.std.specs.Coded.{codes};

    ghost Value = { Function };

    ghost coded = { Prim.hlevel (codes, stmt.the_row.coded) };

    ghost view = { λ r. r.function };

    ghost invariant = { λ r. (r.lines ≡ lines_of r.function) × (r.exits ≡ table_of (lines_of r.function)) };
}

impl Routine {
    pub fn new(alloc: Global, function: Function) -> Result<Routine, AllocError>
        ensures { IfOk result (λ r. r ≡ function) }
    {
        let lines = function.lines(alloc)?;
        let exits = exits_of(alloc, lines.as_slice())?;
        let straight = straight_of(alloc, lines.as_slice())?;
        Ok(Routine {
            function,
            lines,
            exits,
            straight,
        })
    }

    /// The lines, the last of which closes the function's brace.
    pub fn lines(&self) -> &[CodeLine]
        ensures { result.now ≡ lines_of self.now }
    {
        self.lines.as_slice()
    }

    /// Whether the lines from a place to the next brace that closes are rows that a sweep takes.
    pub fn is_straight(&self, place: usize) -> bool {
        match self.straight.get(place) {
            Some(straight) => *straight,
            None => false,
        }
    }

    /// The letters of the parameters.
    pub fn parameters(&self) -> &[Letter]
        ensures { result.now ≡ self.now.parameters }
    {
        self.function.parameters.as_slice()
    }

    #[tactic(auto, using(crate::proofs::Exits::drop_some, crate::proofs::Exits::drop_none))]
    /// The line at a place, or None behind the last one.
    pub fn line(&self, place: usize) -> Option<&CodeLine>
        ensures line { MatchOption result
            (drop place (lines_of self.now) ≡ [])
            (λ line. drop place (lines_of self.now) ≡ line.now ∷ drop (place + 1) (lines_of self.now)) }
        ensures within { OnSome result (place + 1 < 2 ^ 64) }
    {
        let _count = self.lines.len();
        match self.lines.get(place) {
            Some(line) => Some(line),
            None => None,
        }
    }

    /// The place behind the line at a place.
    #[tactic(auto, using(crate::proofs::Exits::drop_rest, crate::proofs::Exits::drop_none))]
    pub fn next(&self, place: usize) -> usize
        ensures { drop result (lines_of self.now) ≡ rest_of (drop place (lines_of self.now)) }
    {
        match self.line(place) {
            Some(_) => place + 1,
            None => place,
        }
    }

    #[tactic(auto, using(crate::proofs::Exits::own_found, crate::proofs::Exits::own_missing))]
    /// The place of the line that closes the innermost brace that is open at a place.
    pub fn exit(&self, place: usize) -> usize
        ensures { drop result (lines_of self.now) ≡ exit_of (drop place (lines_of self.now)) }
    {
        match self.exits.get(place) {
            Some(exit) => exit.own,
            None => self.lines.len(),
        }
    }

    #[tactic(auto, using(crate::proofs::Exits::outer_found, crate::proofs::Exits::outer_missing))]
    /// The same of the brace around that one.
    pub fn outer(&self, place: usize) -> usize
        ensures { drop result (lines_of self.now) ≡ first_exit (rest_of (exits (drop place (lines_of self.now)))) }
    {
        match self.exits.get(place) {
            Some(exit) => exit.outer,
            None => self.lines.len(),
        }
    }
}

/// The innermost of these braces.
fn innermost(end: usize, within: &Stack<Exit>) -> Exit
    ensures { result ≡ first_exit_of end within.now }
{
    match within.top() {
        Some(exit) => *exit,
        None => Exit {
            own: end,
            outer: end,
        },
    }
}

/// A brace that closes at a place, within the open ones.
fn open_at(end: usize, at: usize, within: &mut Stack<Exit>) -> Result<(), AllocError>
    ensures { OnOk result (within.new ≡ opened end at within.old) }
{
    let outer = innermost(end, within).own;
    within.push(Exit { own: at, outer })
}

/// Passes over a line, backwards.
fn pass(end: usize, at: usize, line: &CodeLine, within: &mut Stack<Exit>) -> Result<(), AllocError>
    ensures { OnOk result (within.new ≡ passed end at line.now within.old) }
{
    match line {
        CodeLine::Row(_) => Ok(()),
        CodeLine::If(_) | CodeLine::ForUp(_, _) | CodeLine::ForDown(_, _) | CodeLine::Forever => {
            let _ = within.pop();
            Ok(())
        }
        CodeLine::Else => {
            let _ = within.pop();
            open_at(end, at, within)
        }
        CodeLine::Close => open_at(end, at, within),
    }
}

/// The table of exits of these lines, made from the last line to the first.
fn exits_of(alloc: Global, lines: &[CodeLine]) -> Result<Items<Exit>, AllocError>
    ensures { IfOk result (λ exits. exits ≡ table_of lines.now) }
{
    let end = lines.len();
    let mut open = Stack::new(alloc);
    let mut exits = Stack::new(alloc);
    exits.push(innermost(end, &open))?;
    let mut at = end;
    while at > 0 {
        at -= 1;
        pass(end, at, &lines[at], &mut open)?;
        exits.push(innermost(end, &open))?;
    }
    Ok(exits.into_items())
}

/// A row of integers and cells alone, or f_at.
fn is_swept(row: &Row) -> bool {
    match row {
        Row::Int(_, IntValue::Atom(_) | IntValue::Operation(_, _, _)) => true,
        Row::Int(_, IntValue::Cell(_, _) | IntValue::Wrap(_)) => true,
        Row::Block(BlockRow::StoreInt(_, _, _)) => true,
        Row::Control(ControlRow::At(_)) => true,
        _ => false,
    }
}

/// For each place, whether the lines from there to the next brace that closes are rows that a sweep takes.
fn straight_of(alloc: Global, lines: &[CodeLine]) -> Result<Items<bool>, AllocError> {
    let mut straight = Stack::new(alloc);
    let mut here = false;
    let mut at = lines.len();
    while at > 0 {
        at -= 1;
        here = match &lines[at] {
            CodeLine::Close => true,
            CodeLine::Row(row) => here && is_swept(row),
            _ => false,
        };
        straight.push(here)?;
    }
    Ok(straight.into_items())
}
