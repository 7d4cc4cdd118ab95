//! What the fields in brackets and in rows are taken for, as `specs/Parts` says.

ghost use Rattle.std.specs.Prelude.{◌≡◌, [], ◌∷◌, ◌++◌, IfOk, Option, option_map, option_and_then};
ghost use Rattle.f95_expressions.specs.declared.pending.Field.{Field};
ghost use Rattle.f95_expressions.specs.Machine.{collected, lone, whole, expression_of, items_of};
ghost use Rattle.f95_parts.specs.Parts.{as_reference, reference_of, name_of, spread_expression, keyword_of, argument_of, filled};
ghost use Rattle.f95_parts.specs.Parts.{picked, dim_of, dims_of, dim_of_bounds, bound_of, bounds_of, bound_of_bounds, entity_named};
ghost use Rattle.f95_parts.specs.Parts.{entity_from, entity_of, allocation_named, allocation_of, range_of_bounds, range_from};
ghost use Rattle.f95_parts.specs.Parts.{range_of, index_of_bounds, index_from, index_of, assignment_from, assignment_of};

use a95_base::{SharedBytes, Stack};
use f95_expressions::{Field, Spread, expression_of, lone, whole};
use f95_tree::{
    Allocation, Argument, Assignment, Bound, CaseRange, Dim, Entity, Expression, Index, Item,
    Reference,
};
use sqlite_items::{Boxed, Items};
use std::alloc::{AllocError, Global};

/// What a field may be taken for.
pub trait Part: Drop {
    ghost taken: { Field → Option Self };

    fn take(alloc: Global, field: Field) -> Result<Option<Self>, AllocError>
        ensures { IfOk result (λ part. part ≡ taken field) };
}

/// What each field is, the first one first.
pub fn collected<P: Part>(
    alloc: Global,
    fields: Stack<Field>,
) -> Result<Option<Items<P>>, AllocError>
    ensures { IfOk result (λ parts. parts ≡ collected P.taken [] fields) }
{
    let mut fields = fields;
    let mut parts = Stack::new(alloc);
    'collecting: while let Some(field) = fields.pop() {
        let part = match P::take(alloc, field) {
            Ok(Some(part)) => part,
            Ok(None) => {
                drop(fields);
                drop(parts);
                return Ok(None);
            }
            Err(error) => {
                drop(fields);
                drop(parts);
                return Err(error);
            }
        };
        if let Err(error) = parts.push(part) {
            drop(fields);
            drop(parts);
            return Err(error);
        }
    }
    drop(fields);
    Ok(Some(parts.into_items()))
}

impl Part for Expression {
    ghost use Rattle.f95_expressions.specs.Machine.{expression_of};

    ghost taken = { expression_of };

    fn take(alloc: Global, field: Field) -> Result<Option<Expression>, AllocError> {
        let _ = alloc;
        Ok(expression_of(field))
    }
}

/// The reference that an expression is.
pub fn as_reference(expression: Expression) -> Option<Reference>
    ensures { result ≡ as_reference expression }
{
    match expression {
        Expression::Reference(reference) => Some(reference),
        other => {
            drop(other);
            None
        }
    }
}

pub fn reference_of(field: Field) -> Option<Reference>
    ensures { result ≡ reference_of field }
{
    as_reference(expression_of(field)?)
}

impl Part for Reference {
    ghost use Rattle.f95_parts.specs.Parts.{reference_of};

    ghost taken = { reference_of };

    fn take(alloc: Global, field: Field) -> Result<Option<Reference>, AllocError> {
        let _ = alloc;
        Ok(reference_of(field))
    }
}

impl Part for SharedBytes {
    ghost use Rattle.f95_parts.specs.Parts.{name_of};

    ghost taken = { name_of };

    fn take(alloc: Global, field: Field) -> Result<Option<SharedBytes>, AllocError> {
        let _ = alloc;
        Ok(name_of(field))
    }
}

fn name_of(field: Field) -> Option<SharedBytes>
    ensures { result ≡ name_of field }
{
    whole(expression_of(field)?)
}

/// The expression that a spread is.
pub fn spread_expression(spread: Spread) -> Option<Expression>
    ensures { result ≡ spread_expression spread }
{
    match spread {
        Spread::Empty => None,
        Spread::One(value) => lone(value),
        Spread::Triplet(lower, upper, stride) => {
            drop(lower);
            drop(upper);
            drop(stride);
            None
        }
    }
}

fn keyword_of(left: Option<Expression>) -> Option<Option<SharedBytes>>
    ensures { result ≡ keyword_of left }
{
    match left {
        None => Some(None),
        Some(left) => {
            let name = whole(left)?;
            Some(Some(name))
        }
    }
}

fn argument_of(field: Field) -> Option<Argument>
    ensures { result ≡ argument_of field }
{
    let Field { left, spread } = field;
    let Some(keyword) = keyword_of(left) else {
        drop(spread);
        return None;
    };
    let Some(value) = spread_expression(spread) else {
        drop(keyword);
        return None;
    };
    Some(Argument { keyword, value })
}

impl Part for Argument {
    ghost use Rattle.f95_parts.specs.Parts.{argument_of};

    ghost taken = { argument_of };

    fn take(alloc: Global, field: Field) -> Result<Option<Argument>, AllocError> {
        let _ = alloc;
        Ok(argument_of(field))
    }
}

fn assignment_from(left: Expression, spread: Spread) -> Option<Assignment>
    ensures { result ≡ assignment_from (Some left) spread }
{
    let Some(to) = as_reference(left) else {
        drop(spread);
        return None;
    };
    let Some(value) = spread_expression(spread) else {
        drop(to);
        return None;
    };
    Some(Assignment { to, value })
}

/// The assignment that a field is.
pub fn assignment_of(field: Field) -> Option<Assignment>
    ensures { result ≡ assignment_of field }
{
    let Field { left, spread } = field;
    match left {
        None => {
            drop(spread);
            None
        }
        Some(left) => assignment_from(left, spread),
    }
}
