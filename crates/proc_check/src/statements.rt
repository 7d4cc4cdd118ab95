//! The walk through statements.
ghost use Rattle.std.specs.Prelude.{◌≡◌, ◌∷◌, ◌++◌, [], IfOk};
ghost use Rattle.f95_unit.specs.Plain.{Calls};
ghost use Rattle.f95_unit.specs.View.{call_of, stmt_of};
ghost use Rattle.proc_calls.specs.View.{stmts_of, branches_of, cases_of};
ghost use Rattle.proc_check.specs.Walk.{through_stmt, through_stmts, through_branches, through_cases};

use crate::assignments::{in_assign, in_forall, in_where};
use crate::expressions::{in_allocations, in_arguments, in_bound, in_expr, in_exprs, in_targets};
use a95_base::Break;
use f95_unit::{Branch, Call, Case, Stmt};
use proc_calls::{Caller, at_reference, at_transfer};
use std::alloc::{AllocError, Global};

fn with_variable(alloc: Global, dos: &[u32], n: u32) -> Result<Vec<u32>, AllocError>
    ensures { IfOk result (λ v. v.items ≡ dos.now ++ n ∷ []) }
{
    let mut inner = Vec::from_slice(alloc, dos)?;
    inner.push(n)?;
    Ok(inner)
}

/// A CALL statement.
fn in_call_statement(
    alloc: Global,
    c: &Caller,
    line: u32,
    dos: &[u32],
    call: &Call,
    found: Option<Break>,
) -> Result<Option<Break>, AllocError>
    ensures { IfOk result (λ r. r ≡ through_stmt c.now dos.now found (Calls line (call_of call.now))) }
{
    let found = at_reference(alloc, c, line, dos, false, call, found)?;
    in_arguments(alloc, c, line, dos, call.arguments.as_slice(), found)
}

/// In statements.
#[cycle(statements)]
pub fn in_stmts(
    alloc: Global,
    c: &Caller,
    dos: &[u32],
    body: &[Stmt],
    found: Option<Break>,
) -> Result<Option<Break>, AllocError>
    ensures { IfOk result (λ r. r ≡ through_stmts c.now dos.now found (stmts_of body.now)) }
{
    let mut found = found;
    for s in body {
        found = in_stmt(alloc, c, dos, s, found)?;
    }
    Ok(found)
}

/// In the body of a DO over the variable.
#[cycle(statements)]
fn in_body(
    alloc: Global,
    c: &Caller,
    dos: &[u32],
    n: u32,
    body: &[Stmt],
    found: Option<Break>,
) -> Result<Option<Break>, AllocError>
    ensures { IfOk result (λ r. r ≡ through_stmts c.now (dos.now ++ n ∷ []) found (stmts_of body.now)) }
{
    let inner = with_variable(alloc, dos, n)?;
    in_stmts(alloc, c, inner.as_slice(), body, found)
}

#[cycle(statements)]
fn in_branches(
    alloc: Global,
    c: &Caller,
    dos: &[u32],
    branches: &[Branch],
    found: Option<Break>,
) -> Result<Option<Break>, AllocError>
    ensures { IfOk result (λ r. r ≡ through_branches c.now dos.now found (branches_of branches.now)) }
{
    let mut found = found;
    for b in branches {
        found = in_expr(alloc, c, b.line.0, dos, &b.condition, found)?;
        found = in_stmts(alloc, c, dos, b.body.as_slice(), found)?;
    }
    Ok(found)
}

#[cycle(statements)]
fn in_cases(
    alloc: Global,
    c: &Caller,
    dos: &[u32],
    cases: &[Case],
    found: Option<Break>,
) -> Result<Option<Break>, AllocError>
    ensures { IfOk result (λ r. r ≡ through_cases c.now dos.now found (cases_of cases.now)) }
{
    let mut found = found;
    for k in cases {
        found = in_stmts(alloc, c, dos, k.body.as_slice(), found)?;
    }
    Ok(found)
}

/// In a statement.
#[cycle(statements)]
pub fn in_stmt(
    alloc: Global,
    c: &Caller,
    dos: &[u32],
    s: &Stmt,
    found: Option<Break>,
) -> Result<Option<Break>, AllocError>
    ensures { IfOk result (λ r. r ≡ through_stmt c.now dos.now found (stmt_of s.now)) }
{
    match s {
        Stmt::Assign(a) => in_assign(alloc, c, dos, a, found),
        Stmt::Where(w) => in_where(alloc, c, dos, w, found),
        Stmt::Forall(f) => in_forall(alloc, c, dos, f, found),
        Stmt::Call(line, call) => in_call_statement(alloc, c, line.0, dos, call, found),
        Stmt::Allocate(line, objects) => in_allocations(
            alloc,
            c,
            line.0,
            dos,
            objects.as_slice(),
            found,
        ),
        Stmt::Print(line, es) => {
            let found = at_transfer(c, line.0, found);
            in_exprs(alloc, c, line.0, dos, es.as_slice(), found)
        }
        Stmt::Read(line, targets) => {
            let found = at_transfer(c, line.0, found);
            in_targets(alloc, c, line.0, dos, targets.as_slice(), found)
        }
        Stmt::If(branches, otherwise) => {
            let found = in_branches(alloc, c, dos, branches.as_slice(), found)?;
            in_stmts(alloc, c, dos, otherwise.as_slice(), found)
        }
        Stmt::Select(line, e, cases, otherwise) => {
            let found = in_expr(alloc, c, line.0, dos, e, found)?;
            let found = in_cases(alloc, c, dos, cases.as_slice(), found)?;
            in_stmts(alloc, c, dos, otherwise.as_slice(), found)
        }
        Stmt::Do(line, n, first, last, step, body) => {
            let found = in_expr(alloc, c, line.0, dos, first, found)?;
            let found = in_expr(alloc, c, line.0, dos, last, found)?;
            let found = in_bound(alloc, c, line.0, dos, step, found)?;
            in_body(alloc, c, dos, *n, body.as_slice(), found)
        }
        Stmt::While(line, e, body) => {
            let found = in_expr(alloc, c, line.0, dos, e, found)?;
            in_stmts(alloc, c, dos, body.as_slice(), found)
        }
        Stmt::Forever(_, body) => in_stmts(alloc, c, dos, body.as_slice(), found),
        Stmt::Stop(line) => Ok(at_transfer(c, line.0, found)),
        Stmt::Deallocate(_, _) | Stmt::Exit(_, _) | Stmt::Cycle(_, _) | Stmt::Return(_) => Ok(
            found,
        ),
    }
}
