//! What closed brackets make of their fields.

ghost use Rattle.std.specs.Prelude.{◌≡◌, [], ◌∷◌, IfOk, IsTrue, ◌↔◌, option_map, option_and_then};
ghost use Rattle.f95_expressions.specs.Machine.{lone, whole, item_from, item_of, is_nothing, within, items_of, collected};
ghost use Rattle.f95_expressions.specs.Machine.{value_from, value_of, filled, values_of, expression_of, has_left, index_of};
ghost use Rattle.f95_expressions.specs.Machine.{first_in, maybe_expression_of, looped, looped_with_step, implied, range_from};
ghost use Rattle.f95_expressions.specs.Machine.{part_of, made_part};

use crate::field::lone;
use crate::pending::{Field, Spread, pushed};
use a95_base::{SharedBytes, Stack};
use f95_tree::{Expression, Item, Reference, Value};
use sqlite_items::{Boxed, Items};
use std::alloc::{AllocError, Global};

/// The name of a variable that is named alone.
pub fn whole(expression: Expression) -> Option<SharedBytes>
    ensures { result ≡ whole expression }
{
    match expression {
        Expression::Reference(Reference::Whole(name)) => Some(name),
        other => {
            drop(other);
            None
        }
    }
}

/// The expression in a box of its own, if there is one.
pub fn boxed(
    alloc: Global,
    expression: Option<Expression>,
) -> Result<Option<Boxed<Expression>>, AllocError>
    ensures { IfOk result (λ boxed. boxed ≡ expression) }
{
    match expression {
        None => Ok(None),
        Some(expression) => Ok(Some(Boxed::new(alloc, expression)?)),
    }
}

fn triplet(
    alloc: Global,
    lower: Option<Expression>,
    upper: Option<Expression>,
    stride: Option<Expression>,
) -> Result<Item, AllocError>
    ensures { IfOk result (λ item. item ≡ Item.Triplet lower upper stride) }
{
    let lower = match boxed(alloc, lower) {
        Ok(lower) => lower,
        Err(error) => {
            drop(upper);
            drop(stride);
            return Err(error);
        }
    };
    let upper = match boxed(alloc, upper) {
        Ok(upper) => upper,
        Err(error) => {
            drop(lower);
            drop(stride);
            return Err(error);
        }
    };
    match boxed(alloc, stride) {
        Ok(stride) => Ok(Item::Triplet(lower, upper, stride)),
        Err(error) => {
            drop(lower);
            drop(upper);
            Err(error)
        }
    }
}

fn keyword_value(name: SharedBytes, value: Value) -> Option<Item>
    ensures { result ≡ option_map (Item.Keyword name) (lone value) }
{
    match lone(value) {
        None => {
            drop(name);
            None
        }
        Some(expression) => Some(Item::Keyword(name, expression)),
    }
}

fn keyword_item(left: Expression, spread: Spread) -> Option<Item>
    ensures { result ≡ item_from (Some left) spread }
{
    match spread {
        Spread::Empty => {
            drop(left);
            None
        }
        Spread::One(value) => {
            let Some(name) = whole(left) else {
                drop(value);
                return None;
            };
            keyword_value(name, value)
        }
        Spread::Triplet(lower, upper, stride) => {
            drop(left);
            drop(lower);
            drop(upper);
            drop(stride);
            None
        }
    }
}

fn plain_value(value: Value) -> Option<Item>
    ensures { result ≡ option_map Item.Plain (lone value) }
{
    match lone(value) {
        None => None,
        Some(expression) => Some(Item::Plain(expression)),
    }
}

fn plain_item(alloc: Global, spread: Spread) -> Result<Option<Item>, AllocError>
    ensures { IfOk result (λ item. item ≡ item_from None spread) }
{
    match spread {
        Spread::Empty => Ok(None),
        Spread::One(value) => Ok(plain_value(value)),
        Spread::Triplet(lower, upper, stride) => {
            let item = triplet(alloc, lower, upper, stride)?;
            Ok(Some(item))
        }
    }
}

fn item_of(alloc: Global, field: Field) -> Result<Option<Item>, AllocError>
    ensures { IfOk result (λ item. item ≡ item_of field) }
{
    let Field { left, spread } = field;
    match left {
        None => plain_item(alloc, spread),
        Some(left) => Ok(keyword_item(left, spread)),
    }
}

fn is_nothing(field: &Field) -> bool
    ensures { result ≡ is_nothing field.now }
{
    matches!((&field.left, &field.spread), (None, Spread::Empty))
}

/// The only field between brackets, if something stands there.
fn within_one(fields: Stack<Field>, field: Field) -> Result<Stack<Field>, AllocError>
    requires { fields ≡ [] }
    ensures { IfOk result (λ fields. fields ≡ within (field ∷ [])) }
{
    if is_nothing(&field) {
        drop(field);
        Ok(fields)
    } else {
        pushed(fields, field)
    }
}

/// The fields between brackets, none where nothing stands there.
pub fn within(fields: Stack<Field>) -> Result<Stack<Field>, AllocError>
    ensures { IfOk result (λ inside. inside ≡ within fields) }
{
    let mut fields = fields;
    let Some(field) = fields.pop() else {
        return Ok(fields);
    };
    match fields.top() {
        Some(_) => pushed(fields, field),
        None => within_one(fields, field),
    }
}

/// The items that stand in brackets behind a name.
pub fn items_of(alloc: Global, fields: Stack<Field>) -> Result<Option<Items<Item>>, AllocError>
    ensures { IfOk result (λ items. items ≡ items_of fields) }
{
    let mut fields = within(fields)?;
    let mut items = Stack::new(alloc);
    'collecting: while let Some(field) = fields.pop() {
        let item = match item_of(alloc, field) {
            Ok(Some(item)) => item,
            Ok(None) => {
                drop(fields);
                drop(items);
                return Ok(None);
            }
            Err(error) => {
                drop(fields);
                drop(items);
                return Err(error);
            }
        };
        items = match pushed(items, item) {
            Ok(items) => items,
            Err(error) => {
                drop(fields);
                return Err(error);
            }
        };
    }
    drop(fields);
    Ok(Some(items.into_items()))
}

/// The value that a spread is.
fn value_in(spread: Spread) -> Option<Value>
    ensures { result ≡ value_from None spread }
{
    match spread {
        Spread::Empty => None,
        Spread::One(value) => Some(value),
        Spread::Triplet(lower, upper, stride) => {
            drop(lower);
            drop(upper);
            drop(stride);
            None
        }
    }
}

fn value_of(field: Field) -> Option<Value>
    ensures { result ≡ value_of field }
{
    let Field { left, spread } = field;
    match left {
        None => value_in(spread),
        Some(left) => {
            drop(left);
            drop(spread);
            None
        }
    }
}

/// The values that stand in a constructor, or before the index of an implied DO: at least one.
pub fn values_of(alloc: Global, fields: Stack<Field>) -> Result<Option<Items<Value>>, AllocError>
    ensures { IfOk result (λ values. values ≡ values_of fields) }
{
    let mut fields = fields;
    let mut values = Stack::new(alloc);
    'collecting: while let Some(field) = fields.pop() {
        let Some(value) = value_of(field) else {
            drop(fields);
            drop(values);
            return Ok(None);
        };
        values = match pushed(values, value) {
            Ok(values) => values,
            Err(error) => {
                drop(fields);
                return Err(error);
            }
        };
    }
    drop(fields);
    Ok(filled(values.into_items()))
}

fn filled(values: Items<Value>) -> Option<Items<Value>>
    ensures { result ≡ filled values }
{
    if values.is_empty() {
        drop(values);
        None
    } else {
        Some(values)
    }
}

/// The expression that a field is.
pub fn expression_of(field: Field) -> Option<Expression>
    ensures { result ≡ expression_of field }
{
    lone(value_of(field)?)
}

fn maybe_expression_of(field: Option<Field>) -> Option<Option<Expression>>
    ensures { result ≡ maybe_expression_of field }
{
    match field {
        None => Some(None),
        Some(field) => expression_of(field).map(Some),
    }
}

/// The name in `name = first`.
fn index_name(left: Option<Expression>) -> Option<SharedBytes>
    ensures { result ≡ option_and_then whole left }
{
    whole(left?)
}

fn first_in(spread: Spread) -> Option<Expression>
    ensures { result ≡ first_in spread }
{
    match spread {
        Spread::Empty => None,
        Spread::One(value) => lone(value),
        Spread::Triplet(lower, upper, stride) => {
            drop(lower);
            drop(upper);
            drop(stride);
            None
        }
    }
}

/// `( values , name = first , last , step )`
fn implied_do(
    alloc: Global,
    values: Items<Value>,
    name: SharedBytes,
    first: Expression,
    last: Expression,
    step: Option<Expression>,
) -> Result<Value, AllocError>
    ensures { IfOk result (λ value. value ≡ Value.ImpliedDo values name first last step) }
{
    let values = match Boxed::new(alloc, values) {
        Ok(values) => values,
        Err(error) => {
            drop(name);
            drop(first);
            drop(last);
            drop(step);
            return Err(error);
        }
    };
    let first = match Boxed::new(alloc, first) {
        Ok(first) => first,
        Err(error) => {
            drop(values);
            drop(name);
            drop(last);
            drop(step);
            return Err(error);
        }
    };
    let last = match Boxed::new(alloc, last) {
        Ok(last) => last,
        Err(error) => {
            drop(values);
            drop(name);
            drop(first);
            drop(step);
            return Err(error);
        }
    };
    match boxed(alloc, step) {
        Ok(step) => Ok(Value::ImpliedDo(values, name, first, last, step)),
        Err(error) => {
            drop(values);
            drop(name);
            drop(first);
            drop(last);
            Err(error)
        }
    }
}

fn looped(
    alloc: Global,
    fields: Stack<Field>,
    index: Field,
    last: Field,
    step: Option<Field>,
) -> Result<Option<Value>, AllocError>
    ensures { IfOk result (λ value. value ≡ looped fields index last step) }
{
    let values = match values_of(alloc, fields) {
        Ok(Some(values)) => values,
        Ok(None) => {
            drop(index);
            drop(last);
            drop(step);
            return Ok(None);
        }
        Err(error) => {
            drop(index);
            drop(last);
            drop(step);
            return Err(error);
        }
    };
    let Field { left, spread } = index;
    let Some(name) = index_name(left) else {
        drop(values);
        drop(spread);
        drop(last);
        drop(step);
        return Ok(None);
    };
    let Some(first) = first_in(spread) else {
        drop(values);
        drop(name);
        drop(last);
        drop(step);
        return Ok(None);
    };
    let Some(last) = expression_of(last) else {
        drop(values);
        drop(name);
        drop(first);
        drop(step);
        return Ok(None);
    };
    let Some(step) = maybe_expression_of(step) else {
        drop(values);
        drop(name);
        drop(first);
        drop(last);
        return Ok(None);
    };
    let value = implied_do(alloc, values, name, first, last, step)?;
    Ok(Some(value))
}

fn looped_with_step(
    alloc: Global,
    fields: Stack<Field>,
    last: Field,
    step: Field,
) -> Result<Option<Value>, AllocError>
    ensures { IfOk result (λ value. value ≡ looped_with_step fields last step) }
{
    let mut fields = fields;
    match fields.pop() {
        None => {
            drop(fields);
            drop(last);
            drop(step);
            Ok(None)
        }
        Some(index) => looped(alloc, fields, index, last, Some(step)),
    }
}

/// The implied DO that stands in brackets, by the last field and the one before it.
pub fn implied(
    alloc: Global,
    fields: Stack<Field>,
    before: Field,
    last: Field,
) -> Result<Option<Value>, AllocError>
    ensures { IfOk result (λ value. value ≡ implied (last ∷ before ∷ fields)) }
{
    if before.left.is_some() {
        looped(alloc, fields, before, last, None)
    } else {
        looped_with_step(alloc, fields, before, last)
    }
}

/// `name ( items ) ( lower : upper )`
fn substring(
    alloc: Global,
    name: SharedBytes,
    items: Boxed<Items<Item>>,
    range: (Option<Expression>, Option<Expression>),
) -> Result<Expression, AllocError>
    ensures { IfOk result (λ part. part ≡ Expression.Reference (Reference.Substring name items range)) }
{
    match Boxed::new(alloc, range) {
        Ok(range) => Ok(Expression::Reference(Reference::Substring(name, items, range))),
        Err(error) => {
            drop(name);
            drop(items);
            Err(error)
        }
    }
}

/// The bounds of a substring.
fn range_of(field: Field) -> Option<(Option<Expression>, Option<Expression>)>
    ensures { result ≡ range_from field.left field.spread }
{
    let Field { left, spread } = field;
    match left {
        None => range_in(spread),
        Some(left) => {
            drop(left);
            drop(spread);
            None
        }
    }
}

fn range_in(spread: Spread) -> Option<(Option<Expression>, Option<Expression>)>
    ensures { result ≡ range_from None spread }
{
    match spread {
        Spread::Empty => None,
        Spread::One(value) => {
            drop(value);
            None
        }
        Spread::Triplet(lower, upper, stride) => match stride {
            None => Some((lower, upper)),
            Some(stride) => {
                drop(lower);
                drop(upper);
                drop(stride);
                None
            }
        },
    }
}

fn part_of(
    alloc: Global,
    name: SharedBytes,
    items: Boxed<Items<Item>>,
    field: Field,
) -> Result<Option<Expression>, AllocError>
    ensures { IfOk result (λ part. part ≡ part_of name items field.left field.spread) }
{
    match range_of(field) {
        None => {
            drop(name);
            drop(items);
            Ok(None)
        }
        Some(range) => {
            let part = substring(alloc, name, items, range)?;
            Ok(Some(part))
        }
    }
}

/// `name ( items )` with the brackets of a substring behind it.
pub fn made_part(
    alloc: Global,
    name: SharedBytes,
    items: Boxed<Items<Item>>,
    fields: Stack<Field>,
) -> Result<Option<Expression>, AllocError>
    ensures { IfOk result (λ part. part ≡ made_part name items fields) }
{
    let mut fields = fields;
    let Some(field) = fields.pop() else {
        drop(name);
        drop(items);
        drop(fields);
        return Ok(None);
    };
    match fields.top() {
        Some(_) => {
            drop(name);
            drop(items);
            drop(fields);
            drop(field);
            Ok(None)
        }
        None => {
            drop(fields);
            part_of(alloc, name, items, field)
        }
    }
}

/// `( e )`
pub fn bracketed(alloc: Global, field: Field) -> Result<Option<Expression>, AllocError>
    ensures { IfOk result (λ bracketed. bracketed ≡ option_map Expression.Bracketed (expression_of field)) }
{
    match expression_of(field) {
        None => Ok(None),
        Some(expression) => {
            let expression = Boxed::new(alloc, expression)?;
            Ok(Some(Expression::Bracketed(expression)))
        }
    }
}
