//! The walk through expressions: the first break with those of all references in one.
ghost use Rattle.std.specs.Prelude.{◌≡◌, IfOk, map, option_map};
ghost use Rattle.std.specs.List.{fold};
ghost use Rattle.f95_unit.specs.View.{expr_of, bound_of, call_of, designator_of, target_of, triplet_of, span_of, allocation_of};
ghost use Rattle.f95_unit.specs.Plain.{Subscripts, Items};
ghost use Rattle.proc_calls.specs.View.{access_of, part_of, subject_of, subscript_of, subscripts_of, item_of, items_of};
ghost use Rattle.proc_calls.specs.View.{arguments_of};
ghost use Rattle.proc_check.specs.Walk.{telling, through_expr, through_designator, through_access, through_part};
ghost use Rattle.proc_check.specs.Walk.{through_subscripts, through_bound, through_items, through_arguments, through_subject};
ghost use Rattle.proc_check.specs.Walk.{through_call, through_option, through_triplet, through_span, through_allocation};
ghost use Rattle.proc_check.specs.Walk.{through_target};

use a95_base::Break;
use f95_unit::{
    Access, Allocation, Argument, Bound, Call, Designator, Expr, Item, Node, Part, Span, Subject,
    Subscript, Target, Triplet,
};
use proc_calls::{Caller, at_reference};
use std::alloc::{AllocError, Global};

/// In an expression.
#[cycle(expressions)]
pub fn in_expr(
    alloc: Global,
    c: &Caller,
    line: u32,
    dos: &[u32],
    e: &Expr,
    found: Option<Break>,
) -> Result<Option<Break>, AllocError>
    ensures { IfOk result (λ r. r ≡ through_expr (telling c.now line dos.now) found (expr_of e.now)) }
{
    match &e.node {
        Node::Literal(_) | Node::Constant(_) | Node::Index(_) => Ok(found),
        Node::Designator(d) => in_designator(alloc, c, line, dos, d, found),
        Node::Brackets(inner) => in_expr(alloc, c, line, dos, inner.get(), found),
        Node::Unary(_, inner) => in_expr(alloc, c, line, dos, inner.get(), found),
        Node::Binary(_, left, right) => {
            let found = in_expr(alloc, c, line, dos, left.get(), found)?;
            in_expr(alloc, c, line, dos, right.get(), found)
        }
        Node::Constructor(items) => in_items(alloc, c, line, dos, items.as_slice(), found),
        Node::Elemental(_, es) => in_arguments(alloc, c, line, dos, es.as_slice(), found),
        Node::Trim(inner) => in_expr(alloc, c, line, dos, inner.get(), found),
        Node::Inquiry(_, _, subject) => in_subject(alloc, c, line, dos, subject, found),
        Node::Reduction(_, _, es) => in_arguments(alloc, c, line, dos, es.as_slice(), found),
        Node::Rearranging(_, _, es) => in_arguments(alloc, c, line, dos, es.as_slice(), found),
        Node::Call(call) => in_call(alloc, c, line, dos, call, found),
    }
}

/// In a designator.
#[cycle(expressions)]
pub fn in_designator(
    alloc: Global,
    c: &Caller,
    line: u32,
    dos: &[u32],
    d: &Designator,
    found: Option<Break>,
) -> Result<Option<Break>, AllocError>
    ensures { IfOk result (λ r. r ≡ through_designator (telling c.now line dos.now) found (designator_of d.now)) }
{
    let found = in_access(alloc, c, line, dos, &d.access, found)?;
    in_part(alloc, c, line, dos, &d.part, found)
}

#[cycle(expressions)]
fn in_access(
    alloc: Global,
    c: &Caller,
    line: u32,
    dos: &[u32],
    access: &Access,
    found: Option<Break>,
) -> Result<Option<Break>, AllocError>
    ensures { IfOk result (λ r. r ≡ through_access (telling c.now line dos.now) found (access_of access.now)) }
{
    match access {
        Access::Whole => Ok(found),
        Access::At(subscripts) => in_subscripts(alloc, c, line, dos, subscripts.as_slice(), found),
    }
}

#[cycle(expressions)]
fn in_subscripts(
    alloc: Global,
    c: &Caller,
    line: u32,
    dos: &[u32],
    subscripts: &[Subscript],
    found: Option<Break>,
) -> Result<Option<Break>, AllocError>
    ensures { IfOk result (λ r. r ≡ through_subscripts (telling c.now line dos.now) found (subscripts_of subscripts.now)) }
{
    let mut found = found;
    for s in subscripts {
        found = in_subscript(alloc, c, line, dos, s, found)?;
    }
    Ok(found)
}

#[cycle(expressions)]
fn in_subscript(
    alloc: Global,
    c: &Caller,
    line: u32,
    dos: &[u32],
    s: &Subscript,
    found: Option<Break>,
) -> Result<Option<Break>, AllocError>
    ensures { IfOk result (λ r. (more : Subscripts) →
        through_subscripts (telling c.now line dos.now) found (subscript_of s.now more)
        ≡ through_subscripts (telling c.now line dos.now) r more) }
{
    match s {
        Subscript::One(e) => Ok(in_expr(alloc, c, line, dos, e.get(), found)?),
        Subscript::Vector(e) => Ok(in_expr(alloc, c, line, dos, e.get(), found)?),
        Subscript::Triplet(first, last, stride) => {
            let found = in_bound(alloc, c, line, dos, first, found)?;
            let found = in_bound(alloc, c, line, dos, last, found)?;
            Ok(in_bound(alloc, c, line, dos, stride, found)?)
        }
    }
}

/// In a bound.
#[cycle(expressions)]
pub fn in_bound(
    alloc: Global,
    c: &Caller,
    line: u32,
    dos: &[u32],
    b: &Bound,
    found: Option<Break>,
) -> Result<Option<Break>, AllocError>
    ensures { IfOk result (λ r. r ≡ through_bound (telling c.now line dos.now) found (bound_of b.now)) }
{
    match b {
        Bound::Absent => Ok(found),
        Bound::Given(e) => in_expr(alloc, c, line, dos, e.get(), found),
    }
}

#[cycle(expressions)]
fn in_part(
    alloc: Global,
    c: &Caller,
    line: u32,
    dos: &[u32],
    part: &Part,
    found: Option<Break>,
) -> Result<Option<Break>, AllocError>
    ensures { IfOk result (λ r. r ≡ through_part (telling c.now line dos.now) found (part_of part.now)) }
{
    match part {
        Part::All => Ok(found),
        Part::Bytes(first, last) => {
            let found = in_bound(alloc, c, line, dos, first, found)?;
            in_bound(alloc, c, line, dos, last, found)
        }
    }
}

#[cycle(expressions)]
fn in_items(
    alloc: Global,
    c: &Caller,
    line: u32,
    dos: &[u32],
    items: &[Item],
    found: Option<Break>,
) -> Result<Option<Break>, AllocError>
    ensures { IfOk result (λ r. r ≡ through_items (telling c.now line dos.now) found (items_of items.now)) }
{
    let mut found = found;
    for item in items {
        found = in_item(alloc, c, line, dos, item, found)?;
    }
    Ok(found)
}

#[cycle(expressions)]
fn in_item(
    alloc: Global,
    c: &Caller,
    line: u32,
    dos: &[u32],
    item: &Item,
    found: Option<Break>,
) -> Result<Option<Break>, AllocError>
    ensures { IfOk result (λ r. (more : Items) → through_items (telling c.now line dos.now) found (item_of item.now more)
        ≡ through_items (telling c.now line dos.now) r more) }
{
    match item {
        Item::Value(e) => Ok(in_expr(alloc, c, line, dos, e.get(), found)?),
        Item::Loop(body, first, last, step) => {
            let found = in_items(alloc, c, line, dos, body.as_slice(), found)?;
            let found = in_expr(alloc, c, line, dos, first.get(), found)?;
            let found = in_expr(alloc, c, line, dos, last.get(), found)?;
            Ok(in_bound(alloc, c, line, dos, step, found)?)
        }
    }
}

/// In arguments.
#[cycle(expressions)]
pub fn in_arguments(
    alloc: Global,
    c: &Caller,
    line: u32,
    dos: &[u32],
    es: &[Argument],
    found: Option<Break>,
) -> Result<Option<Break>, AllocError>
    ensures { IfOk result (λ r. r ≡ through_arguments (telling c.now line dos.now) found (arguments_of es.now)) }
{
    let mut found = found;
    for a in es {
        found = in_expr(alloc, c, line, dos, &a.value, found)?;
    }
    Ok(found)
}

#[cycle(expressions)]
fn in_subject(
    alloc: Global,
    c: &Caller,
    line: u32,
    dos: &[u32],
    subject: &Subject,
    found: Option<Break>,
) -> Result<Option<Break>, AllocError>
    ensures { IfOk result (λ r. r ≡ through_subject (telling c.now line dos.now) found (subject_of subject.now)) }
{
    match subject {
        Subject::Name(_) => Ok(found),
        Subject::Of(e) => in_expr(alloc, c, line, dos, e.get(), found),
    }
}

#[cycle(expressions)]
fn in_call(
    alloc: Global,
    c: &Caller,
    line: u32,
    dos: &[u32],
    call: &Call,
    found: Option<Break>,
) -> Result<Option<Break>, AllocError>
    ensures { IfOk result (λ r. r ≡ through_call (telling c.now line dos.now) found (call_of call.now)) }
{
    let found = at_reference(alloc, c, line, dos, true, call, found)?;
    in_arguments(alloc, c, line, dos, call.arguments.as_slice(), found)
}

/// In an expression that may be left out.
pub fn in_option(
    alloc: Global,
    c: &Caller,
    line: u32,
    dos: &[u32],
    option: &Option<Expr>,
    found: Option<Break>,
) -> Result<Option<Break>, AllocError>
    ensures { IfOk result (λ r. r ≡ through_option (telling c.now line dos.now) found (option_map expr_of option.now)) }
{
    match option {
        None => Ok(found),
        Some(e) => in_expr(alloc, c, line, dos, e, found),
    }
}

/// In expressions.
pub fn in_exprs(
    alloc: Global,
    c: &Caller,
    line: u32,
    dos: &[u32],
    es: &[Expr],
    found: Option<Break>,
) -> Result<Option<Break>, AllocError>
    ensures { IfOk result (λ r. r ≡ fold (through_expr (telling c.now line dos.now)) found (map expr_of es.now)) }
{
    let mut found = found;
    for e in es {
        found = in_expr(alloc, c, line, dos, e, found)?;
    }
    Ok(found)
}

/// In what is stored into.
pub fn in_targets(
    alloc: Global,
    c: &Caller,
    line: u32,
    dos: &[u32],
    targets: &[Target],
    found: Option<Break>,
) -> Result<Option<Break>, AllocError>
    ensures { IfOk result (λ r. r ≡ fold (through_target (telling c.now line dos.now)) found (map target_of targets.now)) }
{
    let mut found = found;
    for t in targets {
        found = in_designator(alloc, c, line, dos, &t.designator, found)?;
    }
    Ok(found)
}

fn in_triplet(
    alloc: Global,
    c: &Caller,
    line: u32,
    dos: &[u32],
    t: &Triplet,
    found: Option<Break>,
) -> Result<Option<Break>, AllocError>
    ensures { IfOk result (λ r. r ≡ through_triplet (telling c.now line dos.now) found (triplet_of t.now)) }
{
    let found = in_expr(alloc, c, line, dos, &t.first, found)?;
    let found = in_expr(alloc, c, line, dos, &t.last, found)?;
    in_bound(alloc, c, line, dos, &t.stride, found)
}

/// In the triplets of a FORALL.
pub fn in_triplets(
    alloc: Global,
    c: &Caller,
    line: u32,
    dos: &[u32],
    triplets: &[Triplet],
    found: Option<Break>,
) -> Result<Option<Break>, AllocError>
    ensures { IfOk result (λ r. r ≡ fold (through_triplet (telling c.now line dos.now)) found (map triplet_of triplets.now)) }
{
    let mut found = found;
    for t in triplets {
        found = in_triplet(alloc, c, line, dos, t, found)?;
    }
    Ok(found)
}

fn in_span(
    alloc: Global,
    c: &Caller,
    line: u32,
    dos: &[u32],
    s: &Span,
    found: Option<Break>,
) -> Result<Option<Break>, AllocError>
    ensures { IfOk result (λ r. r ≡ through_span (telling c.now line dos.now) found (span_of s.now)) }
{
    let found = in_bound(alloc, c, line, dos, &s.lower, found)?;
    in_expr(alloc, c, line, dos, &s.upper, found)
}

fn in_spans(
    alloc: Global,
    c: &Caller,
    line: u32,
    dos: &[u32],
    spans: &[Span],
    found: Option<Break>,
) -> Result<Option<Break>, AllocError>
    ensures { IfOk result (λ r. r ≡ fold (through_span (telling c.now line dos.now)) found (map span_of spans.now)) }
{
    let mut found = found;
    for s in spans {
        found = in_span(alloc, c, line, dos, s, found)?;
    }
    Ok(found)
}

/// In the bounds of an ALLOCATE.
pub fn in_allocations(
    alloc: Global,
    c: &Caller,
    line: u32,
    dos: &[u32],
    objects: &[Allocation],
    found: Option<Break>,
) -> Result<Option<Break>, AllocError>
    ensures { IfOk result (λ r. r ≡ fold (through_allocation (telling c.now line dos.now)) found (map allocation_of objects.now)) }
{
    let mut found = found;
    for a in objects {
        found = in_spans(alloc, c, line, dos, a.spans.as_slice(), found)?;
    }
    Ok(found)
}
