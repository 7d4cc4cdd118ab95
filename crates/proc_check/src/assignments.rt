//! The walk through assignments: by themselves, under masks, and for indices.
ghost use Rattle.std.specs.Prelude.{◌≡◌, IfOk, map};
ghost use Rattle.std.specs.List.{fold};
ghost use Rattle.f95_unit.specs.Plain.{MaskedBody};
ghost use Rattle.f95_unit.specs.View.{assign_of, where_of, forall_of};
ghost use Rattle.proc_calls.specs.View.{masked_of, masked_body_of, others_of};
ghost use Rattle.proc_check.specs.Walk.{through_assign, through_where, through_masked, through_others, through_forall};

use crate::expressions::{in_designator, in_expr, in_option, in_triplets};
use a95_base::Break;
use f95_unit::{Assign, Elsewhere, Forall, Masked, Where};
use proc_calls::Caller;
use std::alloc::{AllocError, Global};

/// In an assignment.
pub fn in_assign(
    alloc: Global,
    c: &Caller,
    dos: &[u32],
    a: &Assign,
    found: Option<Break>,
) -> Result<Option<Break>, AllocError>
    ensures { IfOk result (λ r. r ≡ through_assign c.now dos.now found (assign_of a.now)) }
{
    let line = a.line.0;
    let found = in_designator(alloc, c, line, dos, &a.target.designator, found)?;
    in_expr(alloc, c, line, dos, &a.value, found)
}

/// In a WHERE.
#[cycle(masks)]
pub fn in_where(
    alloc: Global,
    c: &Caller,
    dos: &[u32],
    w: &Where,
    found: Option<Break>,
) -> Result<Option<Break>, AllocError>
    ensures { IfOk result (λ r. r ≡ through_where c.now dos.now found (where_of w.now)) }
{
    let found = in_expr(alloc, c, w.line.0, dos, &w.mask, found)?;
    let found = in_masked_body(alloc, c, dos, w.body.as_slice(), found)?;
    in_others(alloc, c, dos, w.others.as_slice(), found)
}

#[cycle(masks)]
fn in_masked_body(
    alloc: Global,
    c: &Caller,
    dos: &[u32],
    body: &[Masked],
    found: Option<Break>,
) -> Result<Option<Break>, AllocError>
    ensures { IfOk result (λ r. r ≡ through_masked c.now dos.now found (masked_body_of body.now)) }
{
    let mut found = found;
    for m in body {
        found = in_masked(alloc, c, dos, m, found)?;
    }
    Ok(found)
}

#[cycle(masks)]
fn in_masked(
    alloc: Global,
    c: &Caller,
    dos: &[u32],
    m: &Masked,
    found: Option<Break>,
) -> Result<Option<Break>, AllocError>
    ensures { IfOk result (λ r. (more : MaskedBody) → through_masked c.now dos.now found (masked_of m.now more)
        ≡ through_masked c.now dos.now r more) }
{
    match m {
        Masked::Assign(a) => Ok(in_assign(alloc, c, dos, a, found)?),
        Masked::Where(w) => Ok(in_where(alloc, c, dos, w, found)?),
    }
}

#[cycle(masks)]
fn in_others(
    alloc: Global,
    c: &Caller,
    dos: &[u32],
    others: &[Elsewhere],
    found: Option<Break>,
) -> Result<Option<Break>, AllocError>
    ensures { IfOk result (λ r. r ≡ through_others c.now dos.now found (others_of others.now)) }
{
    let mut found = found;
    for o in others {
        found = in_option(alloc, c, o.line.0, dos, &o.mask, found)?;
        found = in_masked_body(alloc, c, dos, o.body.as_slice(), found)?;
    }
    Ok(found)
}

fn in_assigns(
    alloc: Global,
    c: &Caller,
    dos: &[u32],
    body: &[Assign],
    found: Option<Break>,
) -> Result<Option<Break>, AllocError>
    ensures { IfOk result (λ r. r ≡ fold (through_assign c.now dos.now) found (map assign_of body.now)) }
{
    let mut found = found;
    for a in body {
        found = in_assign(alloc, c, dos, a, found)?;
    }
    Ok(found)
}

/// In a FORALL.
pub fn in_forall(
    alloc: Global,
    c: &Caller,
    dos: &[u32],
    f: &Forall,
    found: Option<Break>,
) -> Result<Option<Break>, AllocError>
    ensures { IfOk result (λ r. r ≡ through_forall c.now dos.now found (forall_of f.now)) }
{
    let line = f.line.0;
    let found = in_triplets(alloc, c, line, dos, f.triplets.as_slice(), found)?;
    let found = in_option(alloc, c, line, dos, &f.mask, found)?;
    in_assigns(alloc, c, dos, f.body.as_slice(), found)
}
