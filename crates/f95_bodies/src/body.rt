//! The statements of a unit, one more at a time.

ghost use Rattle.std.specs.Prelude.{◌≡◌, [], IfOk, Some};
ghost use Rattle.f95_nesting.specs.Kinds.{unit_context, more_action, more_if};
ghost use Rattle.f95_nesting.specs.Roles.{opened, block_by, statements_by, opening_form};
ghost use Rattle.f95_nesting.specs.Machine.{context, statements_move, select_move, body_move, no_body, is_empty_at, is_empty};
ghost use Rattle.f95_nesting.specs.Machine.{done_at, done_of};
ghost use Rattle.f95_nesting.specs.declared.roles.Opening.TheVariants as opening_of;

use crate::blocks::{Around, SelectSoFar, in_frames, open_block, select_by, with_block};
use crate::wheres::{ForallSoFar, WhereSoFar, forall_move, where_move};
use a95_base::{Line, SharedBytes, Stack};
use f95_nesting::{
    Block, Body, BodyForm, DoHead, Frame, IfHead, Inner, Opening, SelectHead, WhereFrame,
    WherePart, action_stands, body_form, opening_form, select_form,
};
use f95_tree::{Action, BlockForm, Expression, Form, Header, Statement};
use sqlite_items::{Boxed, Items};
use std::alloc::{AllocError, Global};

fn begun_select(
    around: Around,
    line: Line,
    name: Option<SharedBytes>,
    selector: Boxed<Expression>,
) -> Body
    ensures { result ≡ opened around.outer around.before line (opening_of.Select name selector) }
{
    let Around { outer, before } = around;
    let head = SelectHead {
        line,
        name,
        selector,
    };
    let inner = Inner::Select(before, head);
    Body { outer, inner }
}

fn begun_where(alloc: Global, around: Around, line: Line, mask: Expression) -> Body
    ensures { result ≡ opened around.outer around.before line (opening_of.Where mask) }
{
    let Around { outer, before } = around;
    let frame = WhereFrame {
        line,
        mask,
        part: WherePart::First,
        done: Items::new(alloc),
    };
    let inner = Inner::Where(before, Stack::new(alloc), frame);
    Body { outer, inner }
}

fn begun_forall(alloc: Global, around: Around, line: Line, header: Header) -> Body
    ensures { result ≡ opened around.outer around.before line (opening_of.Forall header) }
{
    let Around { outer, before } = around;
    let inner = Inner::Forall(before, line, header, Items::new(alloc));
    Body { outer, inner }
}

/// A block that begins.
fn opened(alloc: Global, around: Around, line: Line, form: Opening) -> Result<Body, AllocError>
    ensures { IfOk result (λ b. b ≡ opened around.outer around.before line form) }
{
    match form {
        Opening::If(name, condition) => {
            let head = IfHead {
                line,
                name,
                condition,
            };
            open_block(alloc, around, Block::If(head))
        }
        Opening::Select(name, selector) => Ok(begun_select(around, line, name, selector)),
        Opening::Do(name, control) => {
            let head = DoHead {
                line,
                name,
                control,
            };
            open_block(alloc, around, Block::Do(head))
        }
        Opening::Where(mask) => Ok(begun_where(alloc, around, line, mask)),
        Opening::Forall(header) => Ok(begun_forall(alloc, around, line, header)),
    }
}

/// A block that begins behind these statements.
fn with_opening(
    alloc: Global,
    around: Around,
    line: Line,
    form: Opening,
) -> Result<Option<Body>, AllocError>
    ensures { IfOk result (λ b. b ≡ Some (opened around.outer around.before line form)) }
{
    Ok(Some(opened(alloc, around, line, form)?))
}

/// A statement that begins, parts or ends a block, behind these statements.
fn block_by(
    alloc: Global,
    around: Around,
    line: Line,
    form: BlockForm,
) -> Result<Option<Body>, AllocError>
    ensures { IfOk result (λ b. b ≡ block_by around.outer around.before line (opening_form form)) }
{
    match opening_form(form) {
        Ok(form) => with_opening(alloc, around, line, form),
        Err(form) => {
            let Around { outer, before } = around;
            in_frames(alloc, outer, before, line, form)
        }
    }
}

/// An action, if it may stand here.
fn more_action(
    procedure: bool,
    around: Around,
    line: Line,
    action: Action,
) -> Result<Option<Body>, AllocError>
    ensures { IfOk result (λ b. b ≡ more_action procedure around.outer around.before line action) }
{
    if !action_stands(procedure, &around.outer, &action) {
        drop(around);
        drop(action);
        return Ok(None);
    }
    with_block(around, Statement::Action(line, action))
}

/// IF with an action, if that may stand here.
fn more_if(
    procedure: bool,
    around: Around,
    line: Line,
    condition: Boxed<Expression>,
    action: Boxed<Action>,
) -> Result<Option<Body>, AllocError>
    ensures { IfOk result (λ b. b ≡ more_if procedure around.outer around.before line condition action) }
{
    if !action_stands(procedure, &around.outer, action.get()) {
        drop(around);
        drop(condition);
        drop(action);
        return Ok(None);
    }
    with_block(around, Statement::If(line, condition, action))
}

fn statements_by(
    alloc: Global,
    procedure: bool,
    around: Around,
    line: Line,
    form: BodyForm,
) -> Result<Option<Body>, AllocError>
    ensures { IfOk result
        (λ b. b ≡ statements_by (context (unit_context procedure) around.outer) around.outer around.before line (Some form)) }
{
    match form {
        BodyForm::Action(action) => more_action(procedure, around, line, action),
        BodyForm::If(condition, action) => more_if(procedure, around, line, condition, action),
        BodyForm::Block(form) => block_by(alloc, around, line, form),
    }
}

/// One statement more behind these, which no block but the outer ones holds.
#[tactic(auto, using(f95_nesting::proofs::ByRole::statements_move_by))]
fn statements_move(
    alloc: Global,
    procedure: bool,
    around: Around,
    line: Line,
    form: Form,
) -> Result<Option<Body>, AllocError>
    ensures { IfOk result
        (λ b. b ≡ statements_move (context (unit_context procedure) around.outer) around.outer around.before line form) }
{
    let Some(form) = body_form(form) else {
        drop(around);
        return Ok(None);
    };
    statements_by(alloc, procedure, around, line, form)
}

/// The first CASE or the end of SELECT CASE.
#[tactic(auto, using(f95_nesting::proofs::ByRole::select_move_by))]
fn select_move(
    alloc: Global,
    around: Around,
    head: SelectHead,
    line: Line,
    form: Form,
) -> Result<Option<Body>, AllocError>
    ensures { IfOk result (λ b. b ≡ select_move around.outer around.before head line form) }
{
    let Some(part) = select_form(form) else {
        drop(around);
        drop(head);
        return Ok(None);
    };
    let so_far = SelectSoFar {
        head,
        cases: Items::new(alloc),
    };
    select_by(alloc, around, so_far, line, part)
}

/// One statement more in the statements of a procedure or a main program, if it may stand there.
pub fn body_move(
    alloc: Global,
    procedure: bool,
    body: Body,
    line: Line,
    form: Form,
) -> Result<Option<Body>, AllocError>
    ensures { IfOk result (λ b. b ≡ body_move (unit_context procedure) body line form) }
{
    let Body { outer, inner } = body;
    match inner {
        Inner::Statements(before) => {
            statements_move(alloc, procedure, Around { outer, before }, line, form)
        }
        Inner::Select(before, head) => {
            select_move(alloc, Around { outer, before }, head, line, form)
        }
        Inner::Where(before, wheres, frame) => {
            let so_far = WhereSoFar {
                around: Around { outer, before },
                wheres,
                frame,
            };
            where_move(alloc, so_far, line, form)
        }
        Inner::Forall(before, at, header, done) => {
            let so_far = ForallSoFar {
                around: Around { outer, before },
                line: at,
                header,
                done,
            };
            forall_move(so_far, line, form)
        }
    }
}

/// No statements.
pub fn no_body(alloc: Global) -> Body
    ensures { result ≡ no_body }
{
    Body {
        outer: Stack::new(alloc),
        inner: Inner::Statements(Items::new(alloc)),
    }
}

fn is_nothing(inner: &Inner) -> bool
    ensures { result ≡ is_empty_at [] inner.now }
{
    match inner {
        Inner::Statements(done) => match done.as_slice() {
            [] => true,
            [_, ..] => false,
        },
        Inner::Select(_, _) => false,
        Inner::Where(_, _, _) => false,
        Inner::Forall(_, _, _, _) => false,
    }
}

/// Whether no statement stands in it.
pub fn is_empty(body: &Body) -> bool
    ensures { result ≡ is_empty body.now }
{
    match body.outer.top() {
        Some(_) => false,
        None => is_nothing(&body.inner),
    }
}

fn done_within(inner: Inner) -> Option<Items<Statement>>
    ensures { result ≡ done_at [] inner }
{
    match inner {
        Inner::Statements(done) => Some(done),
        other => {
            drop(other);
            None
        }
    }
}

fn done_at(outer: Stack<Frame>, inner: Inner) -> Option<Items<Statement>>
    ensures { result ≡ done_at outer inner }
{
    let is_open = outer.top().is_some();
    drop(outer);
    if is_open {
        drop(inner);
        return None;
    }
    done_within(inner)
}

/// The statements, where no block is open.
pub fn done_of(body: Body) -> Option<Items<Statement>>
    ensures { result ≡ done_of body }
{
    let Body { outer, inner } = body;
    done_at(outer, inner)
}
