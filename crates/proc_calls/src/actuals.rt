//! Tests of the actuals of a reference against the dummies that they meet.
ghost use Rattle.std.specs.Prelude.{◌≡◌, ◌==◌, true, IfOk, replicate, slice_get};
ghost use Rattle.std.specs.List.{list_any};
ghost use Rattle.f95_unit.specs.View.{expr_of, designator_of};
ghost use Rattle.proc_calls.specs.View.{arguments_of, subscripts_of, access_of, part_of};
ghost use Rattle.proc_calls.specs.Rules as spec;

use crate::interface::{Dummy, Interface};
use a95_base::Kind;
use f95_unit::{Access, Argument, Designator, Expr, Intent, Node, Part, Role, Subscript};
use std::alloc::{AllocError, Global};

fn met(dummies: &[Option<Dummy>], place: u32) -> Option<Dummy>
    ensures { result ≡ spec.met dummies.now place }
{
    match dummies.get(place as usize) {
        None => None,
        Some(dummy) => *dummy,
    }
}

fn rank(e: &Expr) -> usize
    ensures { result ≡ spec.value_rank (expr_of e.now) }
{
    e.facts.extents.len()
}

// ---- rule 41

fn is_kind(k: Kind, l: Kind) -> bool
    ensures { result ≡ spec.is_kind k l }
{
    match k {
        Kind::Int => matches!(l, Kind::Int),
        Kind::Log => matches!(l, Kind::Log),
        Kind::Text => matches!(l, Kind::Text),
    }
}

fn is_misfit(elemental: bool, dummy: Option<Dummy>, e: &Expr) -> bool
    ensures { result ≡ spec.is_misfit elemental dummy (expr_of e.now) }
{
    match dummy {
        None => false,
        Some(dummy) => !is_kind(dummy.kind, e.facts.kind) || !elemental && dummy.rank != rank(e),
    }
}

fn has_misfit(i: &Interface, es: &[Argument]) -> bool
    ensures { result ≡ spec.some_actual (spec.is_misfit i.now.elemental) i.now.dummies (arguments_of es.now) }
{
    for a in es {
        if is_misfit(i.elemental, met(i.dummies.as_slice(), a.place), &a.value) {
            return true;
        }
    }
    false
}

fn count_of(es: &[Argument]) -> usize
    ensures { result ≡ spec.argument_count (arguments_of es.now) }
{
    let mut count = 0;
    for _a in es {
        count += 1;
    }
    count
}

fn is_one_left(free: &[bool]) -> bool
    ensures { result ≡ list_any (λ b. b) free.now }
{
    for is_free in free {
        if *is_free {
            return true;
        }
    }
    false
}

fn take_places(free: Vec<bool>, es: &[Argument]) -> bool
    ensures { result ≡ spec.take_places free.items (arguments_of es.now) }
{
    let mut free = free;
    for a in es {
        let place = a.place as usize;
        if place >= free.len() || !free[place] {
            return false;
        }
        free[place] = false;
    }
    !is_one_left(free.as_slice())
}

fn all_free(alloc: Global, count: usize) -> Result<Vec<bool>, AllocError>
    ensures { IfOk result (λ free. free.items ≡ replicate count true) }
{
    let mut free = Vec::new(alloc);
    for _place in 0..count {
        free.push(true)?;
    }
    Ok(free)
}

fn is_each_once(alloc: Global, count: usize, es: &[Argument]) -> Result<bool, AllocError>
    ensures { IfOk result (λ once. once ≡ spec.is_each_once count (arguments_of es.now)) }
{
    if count_of(es) != count {
        return Ok(false);
    }
    Ok(take_places(all_free(alloc, count)?, es))
}

fn joint_rank(es: &[Argument]) -> usize
    ensures { result ≡ spec.joint_rank (arguments_of es.now) }
{
    let mut greatest = 0;
    for a in es {
        let rank = rank(&a.value);
        if rank > greatest {
            greatest = rank;
        }
    }
    greatest
}

fn has_other_rank(i: &Interface, greatest: usize, es: &[Argument]) -> bool
    ensures { result ≡ spec.some_actual (spec.is_other_rank greatest) i.now.dummies (arguments_of es.now) }
{
    for a in es {
        let rank = rank(&a.value);
        if rank > 0 && rank != greatest {
            return true;
        }
    }
    false
}

fn ranks_differ(i: &Interface, es: &[Argument]) -> bool
    ensures { result ≡ spec.ranks_differ i.now (arguments_of es.now) }
{
    i.function && i.elemental && has_other_rank(i, joint_rank(es), es)
}

fn is_same(a: bool, b: bool) -> bool
    ensures { result ≡ spec.is_same a b }
{
    if a { b } else { !b }
}

/// Whether the arguments don't match in number, keyword, kind or rank, or the procedure is of the other sort.
pub fn is_mismatch(
    alloc: Global,
    i: &Interface,
    as_function: bool,
    es: &[Argument],
) -> Result<bool, AllocError>
    ensures { IfOk result (λ r. r ≡ spec.mismatches i.now as_function (arguments_of es.now)) }
{
    if !is_same(i.function, as_function) {
        return Ok(true);
    }
    if !is_each_once(alloc, i.dummies.len(), es)? {
        return Ok(true);
    }
    Ok(has_misfit(i, es) || ranks_differ(i, es))
}

// ---- rule 42

pub fn is_in(intent: Intent) -> bool
    ensures { result ≡ spec.is_in intent }
{
    match intent {
        Intent::In => true,
        Intent::Out => false,
        Intent::InOut => false,
    }
}

fn is_own_or_changed(role: Role) -> bool
    ensures { result ≡ spec.is_variable (Some role) }
{
    match role {
        Role::Own => true,
        Role::Dummy(_, intent) => !is_in(intent),
    }
}

fn is_variable(roles: &[Role], n: u32) -> bool
    ensures { result ≡ spec.is_variable (slice_get roles.now n) }
{
    match roles.get(n as usize) {
        None => false,
        Some(role) => is_own_or_changed(*role),
    }
}

fn is_among(dos: &[u32], n: u32) -> bool
    ensures { result ≡ list_any (λ k. k == n) dos.now }
{
    for k in dos {
        if *k == n {
            return true;
        }
    }
    false
}

fn may_store(roles: &[Role], dos: &[u32], n: u32) -> bool
    ensures { result ≡ spec.may_store roles.now dos.now n }
{
    is_variable(roles, n) && !is_among(dos, n)
}

fn has_vector(subscripts: &[Subscript]) -> bool
    ensures { result ≡ spec.has_vector (subscripts_of subscripts.now) }
{
    for s in subscripts {
        if let Subscript::Vector(_) = s {
            return true;
        }
    }
    false
}

fn is_plain_access(access: &Access) -> bool
    ensures { result ≡ spec.is_plain_access (access_of access.now) }
{
    match access {
        Access::Whole => true,
        Access::At(subscripts) => !has_vector(subscripts.as_slice()),
    }
}

fn is_all(part: &Part) -> bool
    ensures { result ≡ spec.is_all (part_of part.now) }
{
    match part {
        Part::All => true,
        Part::Bytes(_, _) => false,
    }
}

fn is_plain(roles: &[Role], dos: &[u32], d: &Designator) -> bool
    ensures { result ≡ spec.is_stored roles.now dos.now (designator_of d.now) }
{
    may_store(roles, dos, d.variable) && is_plain_access(&d.access) && is_all(&d.part)
}

fn is_place(roles: &[Role], dos: &[u32], e: &Expr) -> bool
    ensures { result ≡ spec.is_place roles.now dos.now (expr_of e.now) }
{
    match &e.node {
        Node::Designator(d) => is_plain(roles, dos, d),
        _ => false,
    }
}

fn is_no_place(roles: &[Role], dos: &[u32], dummy: Option<Dummy>, e: &Expr) -> bool
    ensures { result ≡ spec.is_no_place roles.now dos.now dummy (expr_of e.now) }
{
    match dummy {
        None => false,
        Some(dummy) => !is_in(dummy.intent) && !is_place(roles, dos, e),
    }
}

/// Whether the actual of an OUT or INOUT dummy isn't a designator that a store may name, or has a vector subscript or substring.
pub fn has_wrong_out(roles: &[Role], dos: &[u32], i: &Interface, es: &[Argument]) -> bool
    ensures { result ≡ spec.some_actual (spec.is_no_place roles.now dos.now) i.now.dummies (arguments_of es.now) }
{
    for a in es {
        if is_no_place(roles, dos, met(i.dummies.as_slice(), a.place), &a.value) {
            return true;
        }
    }
    false
}

// ---- rule 44

fn has_array(i: &Interface, es: &[Argument]) -> bool
    ensures { result ≡ spec.some_actual spec.is_array_actual i.now.dummies (arguments_of es.now) }
{
    for a in es {
        if rank(&a.value) > 0 {
            return true;
        }
    }
    false
}

/// Whether an ELEMENTAL subroutine has an array actual.
pub fn has_array_actual(i: &Interface, es: &[Argument]) -> bool
    ensures { result ≡ spec.takes_array i.now (arguments_of es.now) }
{
    i.elemental && !i.function && has_array(i, es)
}

// ---- rule 46

fn are_other_lengths(m: Option<u32>, n: Option<u32>) -> bool
    ensures { result ≡ spec.are_other_lengths m n }
{
    match m {
        None => false,
        Some(m) => match n {
            None => false,
            Some(n) => m != n,
        },
    }
}

fn is_other_length(dummy: Option<Dummy>, e: &Expr) -> bool
    ensures { result ≡ spec.is_other_length dummy (expr_of e.now) }
{
    match dummy {
        None => false,
        Some(dummy) => are_other_lengths(dummy.length, e.facts.length),
    }
}

/// Whether a known length of an actual and that of its dummy differ.
pub fn has_other_length(i: &Interface, es: &[Argument]) -> bool
    ensures { result ≡ spec.some_actual spec.is_other_length i.now.dummies (arguments_of es.now) }
{
    for a in es {
        if is_other_length(met(i.dummies.as_slice(), a.place), &a.value) {
            return true;
        }
    }
    false
}
