//! The statements of WHERE and FORALL blocks.

ghost use Rattle.std.specs.Prelude.{◌≡◌, ◌++◌, ◌∷◌, [], IfOk, Some};
ghost use Rattle.f95_nesting.specs.declared.open.WherePart.TheVariants as part_of;
ghost use Rattle.f95_nesting.specs.declared.roles.WhereForm.TheVariants as where_of;
ghost use Rattle.f95_nesting.specs.declared.roles.ForallForm.TheVariants as forall_of;
ghost use Rattle.f95_tree.specs.declared.source.WhereStatement.TheVariants as statement_of;
ghost use Rattle.f95_nesting.specs.Lists.{is_absent};
ghost use Rattle.f95_nesting.specs.Kinds.{with_part};
ghost use Rattle.f95_nesting.specs.Roles.{where_by, forall_by};
ghost use Rattle.f95_nesting.specs.Machine.{elsewhere_of, where_block, closed_part, closed_where, more_where, next_part, in_where};
ghost use Rattle.f95_nesting.specs.Machine.{end_where, where_move, forall_move};

use crate::blocks::{Around, more, with_block};
use a95_base::{Line, Stack};
use f95_nesting::{
    Body, ForallForm, Inner, WhereForm, WhereFrame, WherePart, forall_form, where_form,
};
use f95_tree::{
    Assignment, ElseWhere, Expression, Form, Header, Statement, WhereBlock, WhereStatement,
};
use sqlite_items::{Boxed, Items};
use std::alloc::{AllocError, Global};

/// A WHERE block that is read, the WHERE blocks around it, and what stands around these.
#[derive(Drop)]
pub struct WhereSoFar {
    pub around: Around,
    pub wheres: Stack<WhereFrame>,
    pub frame: WhereFrame,
}

/// A FORALL block that is read: its line, its header, and its assignments so far.
#[derive(Drop)]
pub struct ForallSoFar {
    pub around: Around,
    pub line: Line,
    pub header: Header,
    pub done: Items<(Line, Assignment)>,
}

/// With the statements of ELSEWHERE that is ended.
fn with_elsewhere(
    others: Items<ElseWhere>,
    line: Line,
    mask: Option<Expression>,
    body: Items<WhereStatement>,
) -> Result<Items<ElseWhere>, AllocError>
    ensures { IfOk result (λ os. os ≡ others ++ elsewhere_of line mask body ∷ []) }
{
    let mut others = others;
    others.push(ElseWhere { line, mask, body })?;
    Ok(others)
}

fn where_block(
    line: Line,
    mask: Expression,
    body: Items<WhereStatement>,
    others: Items<ElseWhere>,
    end: Line,
) -> WhereBlock
    ensures { result ≡ where_block line mask body others end }
{
    WhereBlock {
        line,
        mask,
        body,
        others,
        end,
    }
}

/// The block whose last ELSEWHERE ends.
fn closed_behind(
    first: Line,
    mask: Expression,
    body: Items<WhereStatement>,
    others: Items<ElseWhere>,
    last: Line,
    last_mask: Option<Expression>,
    done: Items<WhereStatement>,
    end: Line,
) -> Result<WhereBlock, AllocError>
    ensures { IfOk result (λ b. b ≡ closed_part first mask (part_of.Behind body others last last_mask) done end) }
{
    match with_elsewhere(others, last, last_mask, done) {
        Ok(others) => Ok(where_block(first, mask, body, others, end)),
        Err(error) => {
            drop(mask);
            drop(body);
            Err(error)
        }
    }
}

fn closed_part(
    alloc: Global,
    line: Line,
    mask: Expression,
    part: WherePart,
    done: Items<WhereStatement>,
    end: Line,
) -> Result<WhereBlock, AllocError>
    ensures { IfOk result (λ b. b ≡ closed_part line mask part done end) }
{
    match part {
        WherePart::Behind(body, others, last, last_mask) => {
            closed_behind(line, mask, body, others, last, last_mask, done, end)
        }
        first => {
            drop(first);
            Ok(where_block(line, mask, done, Items::new(alloc), end))
        }
    }
}

/// The block that END WHERE ends.
fn closed_where(alloc: Global, frame: WhereFrame, end: Line) -> Result<WhereBlock, AllocError>
    ensures { IfOk result (λ b. b ≡ closed_where frame end) }
{
    let WhereFrame {
        line,
        mask,
        part,
        done,
    } = frame;
    closed_part(alloc, line, mask, part, done, end)
}

fn more_where(frame: WhereFrame, statement: WhereStatement) -> Result<WhereFrame, AllocError>
    ensures { IfOk result (λ w. w ≡ more_where frame statement) }
{
    let mut frame = frame;
    match frame.done.push(statement) {
        Ok(()) => Ok(frame),
        Err(error) => {
            drop(frame);
            Err(error)
        }
    }
}

fn in_where(around: Around, wheres: Stack<WhereFrame>, frame: WhereFrame) -> Body
    ensures { result ≡ in_where around.outer around.before wheres frame }
{
    let Around { outer, before } = around;
    Body {
        outer,
        inner: Inner::Where(before, wheres, frame),
    }
}

fn is_absent(mask: &Option<Expression>) -> bool
    ensures { result ≡ is_absent mask.now }
{
    match mask {
        None => true,
        Some(_) => false,
    }
}

/// ELSEWHERE behind another, unless that has no mask.
fn part_behind(
    first: Items<WhereStatement>,
    others: Items<ElseWhere>,
    last: Line,
    last_mask: Option<Expression>,
    done: Items<WhereStatement>,
    line: Line,
    mask: Option<Expression>,
) -> Result<Option<WherePart>, AllocError>
    ensures { IfOk result (λ p. p ≡ next_part (part_of.Behind first others last last_mask) done line mask) }
{
    if is_absent(&last_mask) {
        drop(first);
        drop(others);
        drop(last_mask);
        drop(done);
        drop(mask);
        return Ok(None);
    }
    match with_elsewhere(others, last, last_mask, done) {
        Ok(others) => Ok(Some(WherePart::Behind(first, others, line, mask))),
        Err(error) => {
            drop(first);
            drop(mask);
            Err(error)
        }
    }
}

/// ELSEWHERE, unless the one before it has no mask.
fn next_part(
    alloc: Global,
    part: WherePart,
    done: Items<WhereStatement>,
    line: Line,
    mask: Option<Expression>,
) -> Result<Option<WherePart>, AllocError>
    ensures { IfOk result (λ p. p ≡ next_part part done line mask) }
{
    match part {
        WherePart::Behind(first, others, last, last_mask) => {
            part_behind(first, others, last, last_mask, done, line, mask)
        }
        first => {
            drop(first);
            Ok(Some(WherePart::Behind(done, Items::new(alloc), line, mask)))
        }
    }
}

/// With its next part, if there may be one.
fn with_part(
    alloc: Global,
    around: Around,
    wheres: Stack<WhereFrame>,
    line: Line,
    mask: Expression,
    part: Option<WherePart>,
) -> Option<Body>
    ensures { result ≡ with_part around.outer around.before wheres line mask part }
{
    let Some(part) = part else {
        drop(around);
        drop(wheres);
        drop(mask);
        return None;
    };
    let frame = WhereFrame {
        line,
        mask,
        part,
        done: Items::new(alloc),
    };
    Some(in_where(around, wheres, frame))
}

/// ELSEWHERE, if it may follow.
#[tactic(auto, using(f95_nesting::proofs::ByRole::parted_as))]
fn parted_where(
    alloc: Global,
    so_far: WhereSoFar,
    line: Line,
    mask: Option<Expression>,
) -> Result<Option<Body>, AllocError>
    ensures { IfOk result
        (λ b. b ≡ where_by so_far.around.outer so_far.around.before so_far.wheres so_far.frame line (Some (where_of.Else mask))) }
{
    let WhereSoFar {
        around,
        wheres,
        frame,
    } = so_far;
    let WhereFrame {
        line: at,
        mask: at_mask,
        part,
        done,
    } = frame;
    match next_part(alloc, part, done, line, mask) {
        Ok(part) => Ok(with_part(alloc, around, wheres, at, at_mask, part)),
        Err(error) => {
            drop(around);
            drop(wheres);
            drop(at_mask);
            Err(error)
        }
    }
}

/// With a WHERE block inside.
fn with_nested(
    alloc: Global,
    frame: WhereFrame,
    block: WhereBlock,
) -> Result<WhereFrame, AllocError>
    ensures { IfOk result (λ w. w ≡ more_where frame (statement_of.Block block)) }
{
    match Boxed::new(alloc, block) {
        Ok(block) => more_where(frame, WhereStatement::Block(block)),
        Err(error) => {
            drop(frame);
            Err(error)
        }
    }
}

/// Behind a WHERE block inside of another.
fn end_nested(
    alloc: Global,
    around: Around,
    wheres: Stack<WhereFrame>,
    frame: WhereFrame,
    block: WhereBlock,
) -> Result<Body, AllocError>
    ensures { IfOk result (λ b. b ≡ end_where around.outer around.before (frame ∷ wheres) block) }
{
    match with_nested(alloc, frame, block) {
        Ok(frame) => Ok(in_where(around, wheres, frame)),
        Err(error) => {
            drop(around);
            drop(wheres);
            Err(error)
        }
    }
}

fn end_where(
    alloc: Global,
    around: Around,
    wheres: Stack<WhereFrame>,
    block: WhereBlock,
) -> Result<Body, AllocError>
    ensures { IfOk result (λ b. b ≡ end_where around.outer around.before wheres block) }
{
    let mut wheres = wheres;
    let Some(frame) = wheres.pop() else {
        drop(wheres);
        return more(around, Statement::Where(block));
    };
    end_nested(alloc, around, wheres, frame, block)
}

/// WHERE in WHERE.
fn nested_where(
    alloc: Global,
    so_far: WhereSoFar,
    line: Line,
    mask: Expression,
) -> Result<Option<Body>, AllocError>
    ensures { IfOk result
        (λ b. b ≡ where_by so_far.around.outer so_far.around.before so_far.wheres so_far.frame line (Some (where_of.Begin mask))) }
{
    let WhereSoFar {
        around,
        mut wheres,
        frame,
    } = so_far;
    if let Err(error) = wheres.push(frame) {
        drop(around);
        drop(wheres);
        drop(mask);
        return Err(error);
    }
    let frame = WhereFrame {
        line,
        mask,
        part: WherePart::First,
        done: Items::new(alloc),
    };
    Ok(Some(in_where(around, wheres, frame)))
}

/// END WHERE.
fn end_where_by(alloc: Global, so_far: WhereSoFar, line: Line) -> Result<Option<Body>, AllocError>
    ensures { IfOk result
        (λ b. b ≡ where_by so_far.around.outer so_far.around.before so_far.wheres so_far.frame line (Some where_of.End)) }
{
    let WhereSoFar {
        around,
        wheres,
        frame,
    } = so_far;
    match closed_where(alloc, frame, line) {
        Ok(block) => Ok(Some(end_where(alloc, around, wheres, block)?)),
        Err(error) => {
            drop(around);
            drop(wheres);
            Err(error)
        }
    }
}

/// One statement more in the innermost WHERE block.
fn with_where(so_far: WhereSoFar, statement: WhereStatement) -> Result<Option<Body>, AllocError>
    ensures { IfOk result
        (λ b. b ≡ Some (in_where so_far.around.outer so_far.around.before so_far.wheres (more_where so_far.frame statement))) }
{
    let WhereSoFar {
        around,
        wheres,
        frame,
    } = so_far;
    match more_where(frame, statement) {
        Ok(frame) => Ok(Some(in_where(around, wheres, frame))),
        Err(error) => {
            drop(around);
            drop(wheres);
            Err(error)
        }
    }
}

fn where_by(
    alloc: Global,
    so_far: WhereSoFar,
    line: Line,
    form: WhereForm,
) -> Result<Option<Body>, AllocError>
    ensures { IfOk result (λ b. b ≡ where_by so_far.around.outer so_far.around.before so_far.wheres so_far.frame line (Some form)) }
{
    match form {
        WhereForm::Assignment(assignment) => {
            with_where(so_far, WhereStatement::Assignment(line, assignment))
        }
        WhereForm::Masked(mask, assignment) => {
            with_where(so_far, WhereStatement::Where(line, mask, assignment))
        }
        WhereForm::Begin(mask) => nested_where(alloc, so_far, line, mask),
        WhereForm::Else(mask) => parted_where(alloc, so_far, line, mask),
        end => {
            drop(end);
            end_where_by(alloc, so_far, line)
        }
    }
}

/// One statement more inside WHERE.
#[tactic(auto, using(f95_nesting::proofs::ByRole::where_move_by))]
pub fn where_move(
    alloc: Global,
    so_far: WhereSoFar,
    line: Line,
    form: Form,
) -> Result<Option<Body>, AllocError>
    ensures { IfOk result (λ b. b ≡ where_move so_far.around.outer so_far.around.before so_far.wheres so_far.frame line form) }
{
    let Some(form) = where_form(form) else {
        drop(so_far);
        return Ok(None);
    };
    where_by(alloc, so_far, line, form)
}

/// One assignment more in FORALL.
fn with_assignment(
    so_far: ForallSoFar,
    line: Line,
    assignment: Assignment,
) -> Result<Option<Body>, AllocError>
    ensures { IfOk result
        (λ b. b ≡ forall_by so_far.around.outer so_far.around.before so_far.line so_far.header so_far.done line
        (Some (forall_of.Assignment assignment))) }
{
    let ForallSoFar {
        around,
        line: at,
        header,
        mut done,
    } = so_far;
    if let Err(error) = done.push((line, assignment)) {
        drop(around);
        drop(header);
        drop(done);
        return Err(error);
    }
    let Around { outer, before } = around;
    let inner = Inner::Forall(before, at, header, done);
    Ok(Some(Body { outer, inner }))
}

/// END FORALL.
fn end_forall(so_far: ForallSoFar, line: Line) -> Result<Option<Body>, AllocError>
    ensures { IfOk result
        (λ b. b ≡ forall_by so_far.around.outer so_far.around.before so_far.line so_far.header so_far.done line
        (Some forall_of.End)) }
{
    let ForallSoFar {
        around,
        line: at,
        header,
        done,
    } = so_far;
    with_block(around, Statement::Forall(at, header, done, line))
}

fn forall_by(so_far: ForallSoFar, line: Line, form: ForallForm) -> Result<Option<Body>, AllocError>
    ensures { IfOk result
        (λ b. b ≡ forall_by so_far.around.outer so_far.around.before so_far.line so_far.header so_far.done line (Some form)) }
{
    match form {
        ForallForm::Assignment(assignment) => with_assignment(so_far, line, assignment),
        end => {
            drop(end);
            end_forall(so_far, line)
        }
    }
}

/// One statement more inside FORALL.
#[tactic(auto, using(f95_nesting::proofs::ByRole::forall_move_by))]
pub fn forall_move(so_far: ForallSoFar, line: Line, form: Form) -> Result<Option<Body>, AllocError>
    ensures { IfOk result
        (λ b. b ≡ forall_move so_far.around.outer so_far.around.before so_far.line so_far.header so_far.done line form) }
{
    let Some(form) = forall_form(form) else {
        drop(so_far);
        return Ok(None);
    };
    forall_by(so_far, line, form)
}
