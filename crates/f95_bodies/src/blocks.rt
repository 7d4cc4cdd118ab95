//! Statements that part and end IF, SELECT CASE and DO blocks.

ghost use Rattle.std.specs.Prelude.{◌≡◌, ◌++◌, ◌∷◌, [], ◌&&◌, IfOk, Some, None};
ghost use Rattle.f95_nesting.specs.Lists.{is_absent};
ghost use Rattle.f95_nesting.specs.Machine.{more, open_block, if_block, select_block, branch_of, otherwise_of, case_of, ending};
ghost use Rattle.f95_nesting.specs.Machine.{has_default, next_case, in_else_if, in_else, in_do, in_block, in_frames};
ghost use Rattle.f95_nesting.specs.declared.open.Block.TheVariants as block_of;
ghost use Rattle.f95_nesting.specs.Roles.{if_by, select_by, do_block};

use a95_base::{Line, SharedBytes, Stack};
use f95_nesting::{
    Block, Body, BranchHead, CaseHead, DoHead, Frame, IfHead, IfPart, Inner, SelectHead,
    SelectPart, end_of_do, end_of_if, if_part, select_part,
};
use f95_tree::{BlockForm, Branch, Case, CaseRange, Ending, Otherwise, Statement};
use sqlite_items::{Boxed, Items};
use std::alloc::{AllocError, Global};

/// The blocks around a place, and the statements before it in the innermost one.
#[derive(Drop)]
pub struct Around {
    pub outer: Stack<Frame>,
    pub before: Items<Statement>,
}

/// IF, the body behind it, and the ELSE IFs so far.
#[derive(Drop)]
struct IfSoFar {
    head: IfHead,
    first: Items<Statement>,
    branches: Items<Branch>,
}

/// SELECT CASE, and the CASEs so far.
#[derive(Drop)]
pub struct SelectSoFar {
    pub head: SelectHead,
    pub cases: Items<Case>,
}

/// One statement more in the innermost list.
pub fn more(around: Around, statement: Statement) -> Result<Body, AllocError>
    ensures { IfOk result (λ b. b ≡ more around.outer around.before statement) }
{
    let Around { outer, mut before } = around;
    before.push(statement)?;
    Ok(Body {
        outer,
        inner: Inner::Statements(before),
    })
}

/// The same, as a statement that may stand there.
pub fn with_block(around: Around, block: Statement) -> Result<Option<Body>, AllocError>
    ensures { IfOk result (λ b. b ≡ Some (more around.outer around.before block)) }
{
    Ok(Some(more(around, block)?))
}

/// No statements. The first one takes the place that stands ready: most of the blocks that stand deep in others have one.
fn room_for_one(alloc: Global) -> Result<Items<Statement>, AllocError>
    ensures { IfOk result (λ statements. statements ≡ []) }
{
    let room = Vec::with_capacity(alloc, 1)?;
    Ok(Items::from_vec(room))
}

/// A block whose statements begin.
pub fn open_block(alloc: Global, around: Around, block: Block) -> Result<Body, AllocError>
    ensures { IfOk result (λ b. b ≡ open_block around.outer around.before block) }
{
    let body = match room_for_one(alloc) {
        Ok(body) => body,
        Err(error) => {
            drop(around);
            drop(block);
            return Err(error);
        }
    };
    let Around { mut outer, before } = around;
    match outer.push(Frame { before, block }) {
        Ok(()) => Ok(Body {
            outer,
            inner: Inner::Statements(body),
        }),
        Err(error) => {
            drop(outer);
            drop(body);
            Err(error)
        }
    }
}

/// The same, as one that may stand there.
fn opened(alloc: Global, around: Around, block: Block) -> Result<Option<Body>, AllocError>
    ensures { IfOk result (λ b. b ≡ Some (open_block around.outer around.before block)) }
{
    Ok(Some(open_block(alloc, around, block)?))
}

fn boxed(alloc: Global, other: Option<Otherwise>) -> Result<Option<Boxed<Otherwise>>, AllocError>
    ensures { IfOk result (λ o. o ≡ other) }
{
    match other {
        None => Ok(None),
        Some(other) => Ok(Some(Boxed::new(alloc, other)?)),
    }
}

fn ending(line: Line, name: Option<SharedBytes>) -> Ending
    ensures { result ≡ ending line None name }
{
    Ending {
        line,
        word: None,
        name,
    }
}

fn if_block(
    alloc: Global,
    so_far: IfSoFar,
    other: Option<Otherwise>,
    line: Line,
    end: Option<SharedBytes>,
) -> Result<Statement, AllocError>
    ensures { IfOk result (λ s. s ≡ if_block so_far.head so_far.first so_far.branches other line end) }
{
    let end = ending(line, end);
    let IfSoFar {
        head,
        first,
        branches,
    } = so_far;
    let IfHead {
        line: at,
        name,
        condition,
    } = head;
    match boxed(alloc, other) {
        Ok(other) => Ok(Statement::IfBlock(at, name, condition, first, branches, other, end)),
        Err(error) => {
            drop(name);
            drop(condition);
            drop(first);
            drop(branches);
            drop(end);
            Err(error)
        }
    }
}

fn branch(head: BranchHead, body: Items<Statement>) -> Branch
    ensures { result ≡ branch_of head body }
{
    let BranchHead {
        line,
        condition,
        name,
    } = head;
    Branch {
        line,
        condition,
        name,
        body,
    }
}

/// With the body of ELSE IF that is ended.
fn with_branch(
    branches: Items<Branch>,
    head: BranchHead,
    body: Items<Statement>,
) -> Result<Items<Branch>, AllocError>
    ensures { IfOk result (λ bs. bs ≡ branches ++ branch_of head body ∷ []) }
{
    let mut branches = branches;
    branches.push(branch(head, body))?;
    Ok(branches)
}

fn case(head: CaseHead, body: Items<Statement>) -> Case
    ensures { result ≡ case_of head body }
{
    let CaseHead { line, ranges, name } = head;
    Case {
        line,
        ranges,
        name,
        body,
    }
}

/// With the body of CASE that is ended.
fn with_case(
    cases: Items<Case>,
    head: CaseHead,
    body: Items<Statement>,
) -> Result<Items<Case>, AllocError>
    ensures { IfOk result (λ ks. ks ≡ cases ++ case_of head body ∷ []) }
{
    let mut cases = cases;
    cases.push(case(head, body))?;
    Ok(cases)
}

fn otherwise(line: Line, name: Option<SharedBytes>, body: Items<Statement>) -> Otherwise
    ensures { result ≡ otherwise_of line name body }
{
    Otherwise { line, name, body }
}

/// The block that END IF ends.
fn end_if(
    alloc: Global,
    around: Around,
    so_far: IfSoFar,
    other: Option<Otherwise>,
    line: Line,
    end: Option<SharedBytes>,
) -> Result<Option<Body>, AllocError>
    ensures { IfOk result
        (λ b. b ≡ Some (more around.outer around.before (if_block so_far.head so_far.first so_far.branches other line end))) }
{
    match if_block(alloc, so_far, other, line, end) {
        Ok(block) => with_block(around, block),
        Err(error) => {
            drop(around);
            Err(error)
        }
    }
}

/// ELSE IF, ELSE or END IF.
fn if_by(
    alloc: Global,
    around: Around,
    so_far: IfSoFar,
    line: Line,
    part: IfPart,
) -> Result<Option<Body>, AllocError>
    ensures { IfOk result (λ b. b ≡ if_by around.outer around.before so_far.head so_far.first so_far.branches line (Some part)) }
{
    match part {
        IfPart::ElseIf(condition, name) => {
            let next = BranchHead {
                line,
                condition,
                name,
            };
            let IfSoFar {
                head,
                first,
                branches,
            } = so_far;
            opened(alloc, around, Block::ElseIf(head, first, branches, next))
        }
        IfPart::Else(name) => {
            let IfSoFar {
                head,
                first,
                branches,
            } = so_far;
            opened(
                alloc,
                around,
                Block::Else(head, first, branches, line, name),
            )
        }
        IfPart::End(name) => end_if(alloc, around, so_far, None, line, name),
    }
}

/// A statement of IF before ELSE, behind the bodies of IF and of these ELSE IFs.
#[tactic(auto, using(f95_nesting::proofs::ByRole::in_else_if_by))]
fn in_else_if(
    alloc: Global,
    around: Around,
    so_far: IfSoFar,
    line: Line,
    form: BlockForm,
) -> Result<Option<Body>, AllocError>
    ensures { IfOk result (λ b. b ≡ in_else_if around.outer around.before so_far.head so_far.first so_far.branches line form) }
{
    let Some(part) = if_part(form) else {
        drop(around);
        drop(so_far);
        return Ok(None);
    };
    if_by(alloc, around, so_far, line, part)
}

/// A statement behind ELSE.
#[tactic(auto, using(f95_nesting::proofs::ByRole::in_else_by))]
fn in_else(
    alloc: Global,
    around: Around,
    so_far: IfSoFar,
    other: Otherwise,
    line: Line,
    form: BlockForm,
) -> Result<Option<Body>, AllocError>
    ensures { IfOk result (λ b. b ≡ in_else around.outer around.before so_far.head so_far.first so_far.branches other line form) }
{
    let Some(end) = end_of_if(form) else {
        drop(around);
        drop(so_far);
        drop(other);
        return Ok(None);
    };
    end_if(alloc, around, so_far, Some(other), line, end)
}

fn select_block(so_far: SelectSoFar, line: Line, end: Option<SharedBytes>) -> Statement
    ensures { result ≡ select_block so_far.head so_far.cases line end }
{
    let SelectSoFar { head, cases } = so_far;
    let SelectHead {
        line: at,
        name,
        selector,
    } = head;
    Statement::Select(at, name, selector, cases, ending(line, end))
}

fn do_block(head: DoHead, body: Items<Statement>, line: Line, end: Option<SharedBytes>) -> Statement
    ensures { result ≡ do_block head body line end }
{
    let DoHead {
        line: at,
        name,
        control,
    } = head;
    Statement::Do(at, name, control, body, ending(line, end))
}

/// A statement that ends DO.
#[tactic(auto, using(f95_nesting::proofs::ByRole::in_do_by))]
fn in_do(
    around: Around,
    head: DoHead,
    done: Items<Statement>,
    line: Line,
    form: BlockForm,
) -> Result<Option<Body>, AllocError>
    ensures { IfOk result (λ b. b ≡ in_do around.outer around.before head done line form) }
{
    let Some(end) = end_of_do(form) else {
        drop(around);
        drop(head);
        drop(done);
        return Ok(None);
    };
    with_block(around, do_block(head, done, line, end))
}

/// Whether no ranges stand for DEFAULT.
fn is_default(ranges: &Option<Items<CaseRange>>) -> bool
    ensures { result ≡ is_absent ranges.now }
{
    match ranges {
        None => true,
        Some(_) => false,
    }
}

/// Whether CASE DEFAULT is among them.
#[tactic(auto, using(f95_nesting::proofs::Defaults::default_first, f95_nesting::proofs::Defaults::default_rest))]
fn has_default(cases: &[Case]) -> bool
    ensures { result ≡ has_default cases.now }
{
    let mut rest = cases;
    'cases: while let [first, more @ ..] = rest {
        if is_default(&first.ranges) {
            return true;
        }
        rest = more;
    }
    false
}

/// Whether it is a second CASE DEFAULT behind these.
fn is_second_default(cases: &Items<Case>, next: &CaseHead) -> bool
    ensures { result ≡ (is_absent next.now.ranges && has_default cases.now) }
{
    if is_default(&next.ranges) {
        return has_default(cases.as_slice());
    }
    false
}

/// CASE behind these, unless it is a second CASE DEFAULT.
fn next_case(
    alloc: Global,
    around: Around,
    so_far: SelectSoFar,
    next: CaseHead,
) -> Result<Option<Body>, AllocError>
    ensures { IfOk result (λ b. b ≡ next_case around.outer around.before so_far.head so_far.cases next) }
{
    if is_second_default(&so_far.cases, &next) {
        drop(around);
        drop(so_far);
        drop(next);
        return Ok(None);
    }
    let SelectSoFar { head, cases } = so_far;
    opened(alloc, around, Block::Case(head, cases, next))
}

/// CASE or END SELECT.
pub fn select_by(
    alloc: Global,
    around: Around,
    so_far: SelectSoFar,
    line: Line,
    part: SelectPart,
) -> Result<Option<Body>, AllocError>
    ensures { IfOk result (λ b. b ≡ select_by around.outer around.before so_far.head so_far.cases line (Some part)) }
{
    match part {
        SelectPart::Case(ranges, name) => {
            let next = CaseHead { line, ranges, name };
            next_case(alloc, around, so_far, next)
        }
        SelectPart::End(name) => with_block(around, select_block(so_far, line, name)),
    }
}

/// A statement behind ELSE IF and its body.
fn behind_else_if(
    alloc: Global,
    around: Around,
    so_far: IfSoFar,
    last: BranchHead,
    done: Items<Statement>,
    line: Line,
    form: BlockForm,
) -> Result<Option<Body>, AllocError>
    ensures { IfOk result
        (λ b. b ≡ in_block around.outer around.before (block_of.ElseIf so_far.head so_far.first so_far.branches last) done line
        form) }
{
    let IfSoFar {
        head,
        first,
        branches,
    } = so_far;
    let branches = match with_branch(branches, last, done) {
        Ok(branches) => branches,
        Err(error) => {
            drop(around);
            drop(head);
            drop(first);
            drop(form);
            return Err(error);
        }
    };
    let so_far = IfSoFar {
        head,
        first,
        branches,
    };
    in_else_if(alloc, around, so_far, line, form)
}

/// A statement behind CASE and its body.
#[tactic(auto, using(f95_nesting::proofs::ByRole::in_select_by))]
fn behind_case(
    alloc: Global,
    around: Around,
    so_far: SelectSoFar,
    last: CaseHead,
    done: Items<Statement>,
    line: Line,
    form: BlockForm,
) -> Result<Option<Body>, AllocError>
    ensures { IfOk result
        (λ b. b ≡ in_block around.outer around.before (block_of.Case so_far.head so_far.cases last) done line form) }
{
    let Some(part) = select_part(form) else {
        drop(around);
        drop(so_far);
        drop(last);
        drop(done);
        return Ok(None);
    };
    let SelectSoFar { head, cases } = so_far;
    let cases = match with_case(cases, last, done) {
        Ok(cases) => cases,
        Err(error) => {
            drop(around);
            drop(head);
            drop(part);
            return Err(error);
        }
    };
    select_by(alloc, around, SelectSoFar { head, cases }, line, part)
}

/// A statement that parts or ends a block.
#[tactic(auto, using(f95_nesting::proofs::ByRole::first_body))]
fn in_block(
    alloc: Global,
    around: Around,
    block: Block,
    done: Items<Statement>,
    line: Line,
    form: BlockForm,
) -> Result<Option<Body>, AllocError>
    ensures { IfOk result (λ b. b ≡ in_block around.outer around.before block done line form) }
{
    match block {
        Block::If(head) => {
            let so_far = IfSoFar {
                head,
                first: done,
                branches: Items::new(alloc),
            };
            in_else_if(alloc, around, so_far, line, form)
        }
        Block::ElseIf(head, first, branches, last) => {
            let so_far = IfSoFar {
                head,
                first,
                branches,
            };
            behind_else_if(alloc, around, so_far, last, done, line, form)
        }
        Block::Else(head, first, branches, last, name) => {
            let so_far = IfSoFar {
                head,
                first,
                branches,
            };
            in_else(
                alloc,
                around,
                so_far,
                otherwise(last, name, done),
                line,
                form,
            )
        }
        Block::Case(head, cases, last) => {
            let so_far = SelectSoFar { head, cases };
            behind_case(alloc, around, so_far, last, done, line, form)
        }
        Block::Do(head) => in_do(around, head, done, line, form),
    }
}

/// A statement that parts or ends the innermost block, if there is one.
pub fn in_frames(
    alloc: Global,
    outer: Stack<Frame>,
    done: Items<Statement>,
    line: Line,
    form: BlockForm,
) -> Result<Option<Body>, AllocError>
    ensures { IfOk result (λ b. b ≡ in_frames outer done line form) }
{
    let mut outer = outer;
    let Some(frame) = outer.pop() else {
        drop(outer);
        drop(done);
        drop(form);
        return Ok(None);
    };
    let Frame { before, block } = frame;
    in_block(alloc, Around { outer, before }, block, done, line, form)
}
