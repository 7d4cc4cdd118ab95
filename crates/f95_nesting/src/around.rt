//! What is open around a statement: the name of the innermost block, how many blocks there are, and which of them are DO.

ghost use Rattle.std.specs.Prelude.{◌≡◌, ◌<◌, ◌^◌, reverse, Some, None};
ghost use Rattle.std.specs.Option.{option_copied};
ghost use Rattle.f95_nesting.specs.Placed.{leaves, action_stands, in_main, in_procedure};
ghost use Rattle.f95_nesting.specs.Machine.{context, block_name, frames_name, inner_name, body_name, inner_depth, body_depth};
ghost use Rattle.f95_nesting.specs.Kinds.{unit_context, is_do, is_do_of};

use crate::open::{Block, Body, Frame, Inner};
use a95_base::{SharedBytes, Stack};
use f95_tree::Action;

fn block_name(block: &Block) -> Option<&SharedBytes>
    ensures { option_copied result ≡ block_name block.now }
{
    match block {
        Block::If(head) => head.name.as_ref(),
        Block::ElseIf(head, _, _, _) => head.name.as_ref(),
        Block::Else(head, _, _, _, _) => head.name.as_ref(),
        Block::Case(head, _, _) => head.name.as_ref(),
        Block::Do(head) => head.name.as_ref(),
    }
}

fn frames_name<'a>(
    outer: &'a Stack<Frame>,
    unit: Option<&'a SharedBytes>,
) -> Option<&'a SharedBytes>
    ensures { option_copied result ≡ frames_name outer.now (option_copied unit.entry) }
{
    match outer.top() {
        None => unit,
        Some(frame) => block_name(&frame.block),
    }
}

fn inner_name<'a>(inner: &'a Inner, around: Option<&'a SharedBytes>) -> Option<&'a SharedBytes>
    ensures { option_copied result ≡ inner_name inner.now (option_copied around.entry) }
{
    match inner {
        Inner::Statements(_) => around,
        Inner::Select(_, head) => head.name.as_ref(),
        Inner::Where(_, _, _) => None,
        Inner::Forall(_, _, _, _) => None,
    }
}

/// The name of the innermost block, or of the unit where none is open.
pub fn body_name<'a>(body: &'a Body, unit: Option<&'a SharedBytes>) -> Option<&'a SharedBytes>
    ensures { option_copied result ≡ body_name body.now (option_copied unit.entry) }
{
    inner_name(&body.inner, frames_name(&body.outer, unit))
}

#[tactic(auto, using(crate::proofs::Enclosing::wheres_deep))]
fn inner_depth(inner: &Inner, around: usize) -> usize
    requires { around < 2 ^ 63 }
    ensures { result ≡ inner_depth inner.now around }
{
    match inner {
        Inner::Statements(_) => around,
        Inner::Select(_, _) => around + 1,
        Inner::Where(_, outer, _) => around + outer.len() + 1,
        Inner::Forall(_, _, _, _) => around + 1,
    }
}

/// How many blocks are open.
#[tactic(auto, using(crate::proofs::Enclosing::main_blocks, crate::proofs::Enclosing::procedure_blocks))]
pub fn body_depth(body: &Body) -> usize
    ensures main { result ≡ body_depth in_main body.now }
    ensures procedure { result ≡ body_depth in_procedure body.now }
{
    inner_depth(&body.inner, body.outer.len())
}

fn is_do(block: &Block) -> bool
    ensures { result ≡ is_do block.now }
{
    match block {
        Block::Do(_) => true,
        Block::If(_) => false,
        Block::ElseIf(_, _, _, _) => false,
        Block::Else(_, _, _, _, _) => false,
        Block::Case(_, _, _) => false,
    }
}

fn is_do_of(block: &Block, name: &SharedBytes) -> bool
    ensures { result ≡ is_do_of name.now block.now }
{
    match block {
        Block::Do(head) => match &head.name {
            None => false,
            Some(other) => name == other,
        },
        Block::If(_) => false,
        Block::ElseIf(_, _, _, _) => false,
        Block::Else(_, _, _, _, _) => false,
        Block::Case(_, _, _) => false,
    }
}

/// Whether a DO is among the blocks, the innermost last.
#[tactic(auto, using(crate::proofs::Enclosing::do_last, crate::proofs::Enclosing::other_last))]
fn is_in_do(frames: &[Frame]) -> bool
    ensures { result ≡ leaves (context in_main (reverse frames.now)).dos None }
{
    let mut rest = frames;
    'frames: while let Some((last, before)) = rest.split_last() {
        if is_do(&last.block) {
            return true;
        }
        rest = before;
    }
    false
}

/// Whether a DO of this name is among the blocks, the innermost last.
#[tactic(auto, using(crate::proofs::Enclosing::named_last, crate::proofs::Enclosing::unnamed_last))]
fn is_in_do_of(frames: &[Frame], name: &SharedBytes) -> bool
    ensures { result ≡ leaves (context in_main (reverse frames.now)).dos (Some name.now) }
{
    let mut rest = frames;
    'frames: while let Some((last, before)) = rest.split_last() {
        if is_do_of(&last.block, name) {
            return true;
        }
        rest = before;
    }
    false
}

/// Whether EXIT and CYCLE, with a name or without, may stand inside these blocks.
fn leaves(outer: &Stack<Frame>, name: &Option<SharedBytes>) -> bool
    ensures { result ≡ leaves (context in_main outer.now).dos name.now }
{
    match name {
        None => is_in_do(outer.as_slice()),
        Some(name) => is_in_do_of(outer.as_slice(), name),
    }
}

/// Whether an action may stand inside these blocks of a procedure or a main program.
#[tactic(auto, using(crate::proofs::Enclosing::unit_dos, crate::proofs::Enclosing::unit_procedure))]
pub fn action_stands(procedure: bool, outer: &Stack<Frame>, action: &Action) -> bool
    ensures { result ≡ action_stands (context (unit_context procedure) outer.now) action.now }
{
    match action {
        Action::Exit(name) => leaves(outer, name),
        Action::Cycle(name) => leaves(outer, name),
        Action::Return => procedure,
        Action::Assignment(_) => true,
        Action::Call(_, _) => true,
        Action::Allocate(_) => true,
        Action::Deallocate(_) => true,
        Action::Print(_) => true,
        Action::Write(_) => true,
        Action::Read(_) => true,
        Action::ReadUnit(_) => true,
        Action::Stop(_) => true,
        Action::Continue => true,
        Action::Where(_, _) => true,
        Action::Forall(_, _) => true,
    }
}
