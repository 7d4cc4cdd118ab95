//! Dimensions, bounds, and what has them.

ghost use Rattle.std.specs.Prelude.{◌≡◌, [], ◌∷◌, ◌++◌, length, IfOk, option_map, option_and_then};
ghost use Rattle.f95_expressions.specs.declared.pending.Field.{Field};
ghost use Rattle.f95_expressions.specs.Machine.{lone, whole, has_left, expression_of};
ghost use Rattle.f95_parts.specs.Parts.{filled, picked, dim_of, dims_of, dim_of_bounds, bound_of, bounds_of, bound_of_bounds};
ghost use Rattle.f95_parts.specs.Parts.{entity, entity_named, entity_from, entity_of, allocation_named, allocation_of};
ghost use Rattle.f95_parts.specs.Parts.{range_of_bounds, range_from, range_of, index_of_bounds, index_from, index_of, indices_of};
ghost use Rattle.f95_parts.specs.Parts.{header_of};

use crate::part::{Part, as_reference, collected, reference_of, spread_expression};
use a95_base::{SharedBytes, Stack};
use f95_expressions::{Field, Spread, boxed, expression_of, lone, whole};
use f95_tree::{
    Allocation, Bound, CaseRange, Dim, Entity, Expression, Header, Index, Item, Reference,
};
use sqlite_items::{Boxed, Items};
use std::alloc::{AllocError, Global};

/// The same items, the first one on top.
fn stacked(alloc: Global, items: Items<Item>) -> Result<Stack<Item>, AllocError>
    ensures { IfOk result (λ stack. stack ≡ items) }
{
    let mut items = items;
    let mut stack = Stack::new(alloc);
    'stacking: while let Some(item) = items.pop() {
        if let Err(error) = stack.push(item) {
            drop(items);
            drop(stack);
            return Err(error);
        }
    }
    drop(items);
    Ok(stack)
}

fn dim_of_bounds(lower: Option<Expression>, upper: Option<Expression>) -> Option<Dim>
    ensures { result ≡ dim_of_bounds lower upper None }
{
    match lower {
        None => match upper {
            None => Some(Dim::Deferred),
            Some(upper) => {
                drop(upper);
                None
            }
        },
        Some(lower) => match upper {
            None => Some(Dim::Lower(lower)),
            Some(upper) => Some(Dim::Both(lower, upper)),
        },
    }
}

fn unboxed(expression: Option<Boxed<Expression>>) -> Option<Expression>
    ensures { result ≡ expression }
{
    match expression {
        None => None,
        Some(expression) => Some(expression.into_inner()),
    }
}

fn dim_of(item: Item) -> Option<Dim>
    ensures { result ≡ dim_of item }
{
    match item {
        Item::Plain(upper) => Some(Dim::Upper(upper)),
        Item::Keyword(name, value) => {
            drop(name);
            drop(value);
            None
        }
        Item::Triplet(lower, upper, stride) => match stride {
            None => dim_of_bounds(unboxed(lower), unboxed(upper)),
            Some(stride) => {
                drop(lower);
                drop(upper);
                drop(stride);
                None
            }
        },
    }
}

fn filled<T: Drop>(items: Items<T>) -> Option<Items<T>>
    ensures { result ≡ filled items }
{
    if items.is_empty() { None } else { Some(items) }
}

/// The bounds of all dimensions, at least of one.
pub fn dims_of(alloc: Global, items: Items<Item>) -> Result<Option<Items<Dim>>, AllocError>
    ensures { IfOk result (λ dims. dims ≡ dims_of items) }
{
    let mut items = stacked(alloc, items)?;
    let mut dims = Items::new(alloc);
    'picking: while let Some(item) = items.pop() {
        let Some(dim) = dim_of(item) else {
            drop(items);
            drop(dims);
            return Ok(None);
        };
        if let Err(error) = dims.push(dim) {
            drop(items);
            drop(dims);
            return Err(error);
        }
    }
    drop(items);
    Ok(filled(dims))
}

fn bound_of_bounds(lower: Option<Expression>, upper: Option<Expression>) -> Option<Bound>
    ensures { result ≡ bound_of_bounds lower upper None }
{
    let Some(lower) = lower else {
        drop(upper);
        return None;
    };
    let Some(upper) = upper else {
        drop(lower);
        return None;
    };
    Some(Bound::Both(lower, upper))
}

fn bound_of(item: Item) -> Option<Bound>
    ensures { result ≡ bound_of item }
{
    match item {
        Item::Plain(upper) => Some(Bound::Upper(upper)),
        Item::Keyword(name, value) => {
            drop(name);
            drop(value);
            None
        }
        Item::Triplet(lower, upper, stride) => match stride {
            None => bound_of_bounds(unboxed(lower), unboxed(upper)),
            Some(stride) => {
                drop(lower);
                drop(upper);
                drop(stride);
                None
            }
        },
    }
}

fn bounds_of(alloc: Global, items: Items<Item>) -> Result<Option<Items<Bound>>, AllocError>
    ensures { IfOk result (λ bounds. bounds ≡ bounds_of items) }
{
    let mut items = stacked(alloc, items)?;
    let mut bounds = Items::new(alloc);
    'picking: while let Some(item) = items.pop() {
        let Some(bound) = bound_of(item) else {
            drop(items);
            drop(bounds);
            return Ok(None);
        };
        if let Err(error) = bounds.push(bound) {
            drop(items);
            drop(bounds);
            return Err(error);
        }
    }
    drop(items);
    Ok(filled(bounds))
}

fn entity_named(
    alloc: Global,
    initial: Option<Expression>,
    reference: Reference,
) -> Result<Option<Entity>, AllocError>
    ensures { IfOk result (λ entity. entity ≡ entity_named initial reference) }
{
    match reference {
        Reference::Whole(name) => Ok(Some(Entity {
            name,
            dims: None,
            initial,
        })),
        Reference::Items(name, items) => match dims_of(alloc, items.into_inner()) {
            Ok(Some(dims)) => Ok(Some(Entity {
                name,
                dims: Some(dims),
                initial,
            })),
            Ok(None) => {
                drop(name);
                drop(initial);
                Ok(None)
            }
            Err(error) => {
                drop(name);
                drop(initial);
                Err(error)
            }
        },
        other => {
            drop(other);
            drop(initial);
            Ok(None)
        }
    }
}

/// An entity without initial value.
fn plain_entity(alloc: Global, spread: Spread) -> Result<Option<Entity>, AllocError>
    ensures { IfOk result (λ entity. entity ≡ entity_from None spread) }
{
    let Some(expression) = spread_expression(spread) else {
        return Ok(None);
    };
    match as_reference(expression) {
        None => Ok(None),
        Some(reference) => entity_named(alloc, None, reference),
    }
}

fn initial_entity(
    alloc: Global,
    left: Expression,
    spread: Spread,
) -> Result<Option<Entity>, AllocError>
    ensures { IfOk result (λ entity. entity ≡ entity_from (Some left) spread) }
{
    let Some(initial) = spread_expression(spread) else {
        drop(left);
        return Ok(None);
    };
    match as_reference(left) {
        None => {
            drop(initial);
            Ok(None)
        }
        Some(reference) => entity_named(alloc, Some(initial), reference),
    }
}

impl Part for Entity {
    ghost use Rattle.f95_parts.specs.Parts.{entity_of};

    ghost taken = { entity_of };

    fn take(alloc: Global, field: Field) -> Result<Option<Entity>, AllocError> {
        let Field { left, spread } = field;
        match left {
            None => plain_entity(alloc, spread),
            Some(left) => initial_entity(alloc, left, spread),
        }
    }
}

fn allocation_named(alloc: Global, reference: Reference) -> Result<Option<Allocation>, AllocError>
    ensures { IfOk result (λ allocation. allocation ≡ allocation_named reference) }
{
    match reference {
        Reference::Items(name, items) => match bounds_of(alloc, items.into_inner()) {
            Ok(Some(bounds)) => Ok(Some(Allocation { name, bounds })),
            Ok(None) => {
                drop(name);
                Ok(None)
            }
            Err(error) => {
                drop(name);
                Err(error)
            }
        },
        other => {
            drop(other);
            Ok(None)
        }
    }
}

impl Part for Allocation {
    ghost use Rattle.f95_parts.specs.Parts.{allocation_of};

    ghost taken = { allocation_of };

    fn take(alloc: Global, field: Field) -> Result<Option<Allocation>, AllocError> {
        match reference_of(field) {
            None => Ok(None),
            Some(reference) => allocation_named(alloc, reference),
        }
    }
}

fn range_of_bounds(lower: Option<Expression>, upper: Option<Expression>) -> Option<CaseRange>
    ensures { result ≡ range_of_bounds lower upper None }
{
    match lower {
        None => match upper {
            None => None,
            Some(upper) => Some(CaseRange::UpTo(upper)),
        },
        Some(lower) => match upper {
            None => Some(CaseRange::From(lower)),
            Some(upper) => Some(CaseRange::Between(lower, upper)),
        },
    }
}

fn range_in(spread: Spread) -> Option<CaseRange>
    ensures { result ≡ range_from None spread }
{
    match spread {
        Spread::Empty => None,
        Spread::One(value) => Some(CaseRange::One(lone(value)?)),
        Spread::Triplet(lower, upper, stride) => match stride {
            None => range_of_bounds(lower, upper),
            Some(stride) => {
                drop(lower);
                drop(upper);
                drop(stride);
                None
            }
        },
    }
}

fn range_of(field: Field) -> Option<CaseRange>
    ensures { result ≡ range_of field }
{
    let Field { left, spread } = field;
    match left {
        None => range_in(spread),
        Some(left) => {
            drop(left);
            drop(spread);
            None
        }
    }
}

impl Part for CaseRange {
    ghost use Rattle.f95_parts.specs.Parts.{range_of};

    ghost taken = { range_of };

    fn take(alloc: Global, field: Field) -> Result<Option<CaseRange>, AllocError> {
        let _ = alloc;
        Ok(range_of(field))
    }
}

fn index_named(
    name: SharedBytes,
    lower: Option<Expression>,
    upper: Option<Expression>,
    stride: Option<Expression>,
) -> Option<Index>
    ensures { result ≡ index_of_bounds name lower upper stride }
{
    let Some(lower) = lower else {
        drop(name);
        drop(upper);
        drop(stride);
        return None;
    };
    let Some(upper) = upper else {
        drop(name);
        drop(lower);
        drop(stride);
        return None;
    };
    Some(Index {
        name,
        lower,
        upper,
        stride,
    })
}

fn index_from(left: Expression, spread: Spread) -> Option<Index>
    ensures { result ≡ index_from (Some left) spread }
{
    match spread {
        Spread::Empty => {
            drop(left);
            None
        }
        Spread::One(value) => {
            drop(left);
            drop(value);
            None
        }
        Spread::Triplet(lower, upper, stride) => {
            let Some(name) = whole(left) else {
                drop(lower);
                drop(upper);
                drop(stride);
                return None;
            };
            index_named(name, lower, upper, stride)
        }
    }
}

fn index_of(field: Field) -> Option<Index>
    ensures { result ≡ index_of field }
{
    let Field { left, spread } = field;
    match left {
        None => {
            drop(spread);
            None
        }
        Some(left) => index_from(left, spread),
    }
}

impl Part for Index {
    ghost use Rattle.f95_parts.specs.Parts.{index_of};

    ghost taken = { index_of };

    fn take(alloc: Global, field: Field) -> Result<Option<Index>, AllocError> {
        let _ = alloc;
        Ok(index_of(field))
    }
}

fn indices_of(
    alloc: Global,
    mask: Option<Expression>,
    fields: Stack<Field>,
) -> Result<Option<Header>, AllocError>
    ensures { IfOk result (λ header. header ≡ indices_of mask fields) }
{
    if fields.top().is_none() {
        drop(mask);
        drop(fields);
        return Ok(None);
    }
    let mask = match boxed(alloc, mask) {
        Ok(mask) => mask,
        Err(error) => {
            drop(fields);
            return Err(error);
        }
    };
    match collected(alloc, fields) {
        Ok(Some(indices)) => Ok(Some(Header { indices, mask })),
        Ok(None) => {
            drop(mask);
            Ok(None)
        }
        Err(error) => {
            drop(mask);
            Err(error)
        }
    }
}

/// The header of a FORALL.
pub fn header_of(alloc: Global, fields: Stack<Field>) -> Result<Option<Header>, AllocError>
    ensures { IfOk result (λ header. header ≡ header_of fields) }
{
    let mut fields = fields;
    let Some(last) = fields.pop() else {
        drop(fields);
        return Ok(None);
    };
    if last.left.is_some() {
        return match fields.push(last) {
            Ok(()) => indices_of(alloc, None, fields),
            Err(error) => {
                drop(fields);
                Err(error)
            }
        };
    }
    match expression_of(last) {
        None => {
            drop(fields);
            Ok(None)
        }
        Some(mask) => indices_of(alloc, Some(mask), fields),
    }
}
