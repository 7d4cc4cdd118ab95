//! Constructors: the number of their values, and what is known of each.
ghost use Rattle.std.specs.Prelude.{◌≡◌, ◌++◌, option_map, IfOk};
ghost use Rattle.f95_unit.specs.View.{expr_of, bound_of};
ghost use Rattle.f95_unit.specs.Plain as plain;
ghost use Rattle.proc_calls.specs.View.{item_of, items_of};
ghost use Rattle.well_typed.specs.Known as spec;

use crate::counts::count_between;
use crate::worth::{bound_known, integer_known};
use a95_base::{Kind, Scalar};
use f95_unit::{Bound, Expr, Facts, Item, Node};
use sqlite_items::Items;
use std::alloc::{AllocError, Global};
use typed_facts::{Extent, plus, size_known, times};

/// The number of rounds of an implied DO.
fn rounds(
    alloc: Global,
    constants: &[Scalar],
    first: &Expr,
    last: &Expr,
    step: &Bound,
) -> Result<Extent, AllocError>
    ensures { IfOk result (λ n. n ≡ spec.rounds constants.now (expr_of first.now) (expr_of last.now) (bound_of step.now)) }
{
    let first = integer_known(alloc, constants, first)?;
    let last = integer_known(alloc, constants, last)?;
    let step = bound_known(alloc, constants, Some(1), step)?;
    Ok(count_between(first, last, step))
}

#[cycle(counts)]
#[tactic(auto, using(crate::proofs::Sums::plus_assoc))]
fn with_item(
    alloc: Global,
    constants: &[Scalar],
    item: &Item,
    total: Extent,
) -> Result<Extent, AllocError>
    ensures { IfOk result (λ r. (more : plain.Items)
        → spec.plus total (spec.count_of constants.now (item_of item.now more)) ≡ spec.plus r (spec.count_of constants.now more)) }
{
    match item {
        Item::Value(e) => {
            let size = size_known(e.get().facts.extents.as_slice())?;
            plus(total, size)
        }
        Item::Loop(body, first, last, step) => {
            let values = count_of(alloc, constants, body.as_slice())?;
            let rounds = rounds(alloc, constants, first.get(), last.get(), step)?;
            let size = times(rounds, values)?;
            plus(total, size)
        }
    }
}

/// The number of values, where it is known.
#[cycle(counts)]
#[tactic(auto, using(crate::proofs::Sums::plus_zero, crate::proofs::Sums::plus_from_zero))]
fn count_of(alloc: Global, constants: &[Scalar], items: &[Item]) -> Result<Extent, AllocError>
    ensures { IfOk result (λ n. n ≡ spec.count_of constants.now (items_of items.now)) }
{
    let mut total = Some(0);
    for item in items {
        total = with_item(alloc, constants, item, total)?;
    }
    Ok(total)
}

/// What the first value is.
#[cycle(firsts)]
fn first_facts(items: &[Item]) -> Option<&Facts>
    ensures { option_map (λ f. f.now) result ≡ spec.first_facts (spec.values_facts (items_of items.now)) }
{
    for item in items {
        let found = first_in(item);
        if found.is_some() {
            return found;
        }
    }
    None
}

/// What the first value of one item is.
#[cycle(firsts)]
#[tactic(auto, using(crate::proofs::Sums::first_appended))]
fn first_in(item: &Item) -> Option<&Facts>
    ensures { (more : plain.Items) → spec.first_facts (spec.values_facts (item_of item.now more))
        ≡ spec.first_or (option_map (λ f. f.now) result) (spec.first_facts (spec.values_facts more)) }
{
    match item {
        Item::Value(e) => Some(&e.get().facts),
        Item::Loop(body, ..) => first_facts(body.as_slice()),
    }
}

fn vector_of(alloc: Global, first: Option<&Facts>, count: Extent) -> Result<Facts, AllocError>
    ensures { IfOk result (λ f. f ≡ spec.vector_of (option_map (λ f. f.now) first.entry) count) }
{
    let mut extents = Items::new(alloc);
    extents.push(count)?;
    match first {
        None => Ok(Facts {
            kind: Kind::Int,
            length: None,
            extents,
        }),
        Some(f) => Ok(Facts {
            kind: f.kind,
            length: f.length,
            extents,
        }),
    }
}

/// What a constructor is.
pub fn constructor_facts(
    alloc: Global,
    constants: &[Scalar],
    items: &[Item],
) -> Result<Facts, AllocError>
    ensures { IfOk result (λ f. f ≡ spec.constructor_facts constants.now (items_of items.now)) }
{
    let count = count_of(alloc, constants, items)?;
    vector_of(alloc, first_facts(items), count)
}

/// What is known of a scalar value, behind what is known of those before.
fn with_entry(
    alloc: Global,
    constants: &[Scalar],
    e: &Expr,
    made: Items<Option<i32>>,
) -> Result<Items<Option<i32>>, AllocError>
    ensures { IfOk result (λ r. r ≡ made ++ spec.entry_of constants.now (expr_of e.now) e.now.facts.extents) }
{
    let mut made = made;
    if e.facts.extents.len() == 0 {
        let known = integer_known(alloc, constants, e)?;
        made.push(known)?;
    }
    Ok(made)
}

fn entries_of(
    alloc: Global,
    constants: &[Scalar],
    items: &[Item],
) -> Result<Items<Option<i32>>, AllocError>
    ensures { IfOk result (λ made. made ≡ spec.entries_of constants.now (items_of items.now)) }
{
    let mut made = Items::new(alloc);
    for item in items {
        let Item::Value(e) = item else {
            return Ok(made);
        };
        made = with_entry(alloc, constants, e.get(), made)?;
    }
    Ok(made)
}

/// What is known of the values of a constructor of scalars.
pub fn known_entries(
    alloc: Global,
    constants: &[Scalar],
    e: &Expr,
) -> Result<Items<Option<i32>>, AllocError>
    ensures { IfOk result (λ made. made ≡ spec.known_entries constants.now (expr_of e.now)) }
{
    match &e.node {
        Node::Constructor(items) => entries_of(alloc, constants, items.as_slice()),
        _ => Ok(Items::new(alloc)),
    }
}
