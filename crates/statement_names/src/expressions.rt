//! The names in expressions.
ghost use Rattle.std.specs.Prelude.{◌≡◌, ◌∷◌, [], ◌++◌, map, option_map, OnOk};
ghost use Rattle.names_types.specs.Plain.{Items, Values};
ghost use Rattle.names_types.specs.Mentions.{names_in, names_in_reference, names_in_bound, names_in_items, names_in_values};
ghost use Rattle.names_types.specs.View.{expr_of, reference_of, item_of, value_of, joined_items, joined_values, bound_of};

use a95_base::SharedBytes;
use f95_tree::{Expression, Item, Reference, Value};
use sqlite_items::Boxed;
use std::alloc::AllocError;

/// A name at the end of the list.
pub fn add_name(name: &SharedBytes, names: &mut Vec<SharedBytes>) -> Result<(), AllocError>
    ensures { OnOk result (names.new.items ≡ names.old.items ++ name.now ∷ []) }
{
    names.push(name.share()?)?;
    Ok(())
}

#[cycle(names)]
pub fn expression_names(e: &Expression, names: &mut Vec<SharedBytes>) -> Result<(), AllocError>
    ensures { OnOk result (names.new.items ≡ names.old.items ++ names_in (expr_of e.now)) }
{
    match e {
        Expression::Literal(_) => Ok(()),
        Expression::Reference(r) => reference_names(r, names),
        Expression::Bracketed(e) => expression_names(e.get(), names),
        Expression::Constructor(values) => values_names(values.as_slice(), names),
        Expression::Signed(_, e) => expression_names(e.get(), names),
        Expression::Binary(_, e, f) => {
            expression_names(e.get(), names)?;
            expression_names(f.get(), names)
        }
    }
}

#[cycle(names)]
pub fn reference_names(r: &Reference, names: &mut Vec<SharedBytes>) -> Result<(), AllocError>
    ensures { OnOk result (names.new.items ≡ names.old.items ++ names_in_reference (reference_of r.now)) }
{
    match r {
        Reference::Whole(name) => add_name(name, names),
        Reference::Items(name, items) => {
            add_name(name, names)?;
            items_names(items.get().as_slice(), names)
        }
        Reference::Substring(name, items, range) => {
            add_name(name, names)?;
            items_names(items.get().as_slice(), names)?;
            let range = range.get();
            bound_names(&range.0, names)?;
            bound_names(&range.1, names)
        }
    }
}

#[cycle(names)]
fn bound_names(bound: &Option<Expression>, names: &mut Vec<SharedBytes>) -> Result<(), AllocError>
    ensures { OnOk result (names.new.items ≡ names.old.items ++ names_in_bound (bound_of (option_map expr_of bound.now))) }
{
    match bound {
        None => Ok(()),
        Some(e) => expression_names(e, names),
    }
}

#[cycle(names)]
fn boxed_names(
    bound: &Option<Boxed<Expression>>,
    names: &mut Vec<SharedBytes>,
) -> Result<(), AllocError>
    ensures { OnOk result (names.new.items ≡ names.old.items ++ names_in_bound (bound_of (option_map expr_of bound.now))) }
{
    match bound {
        None => Ok(()),
        Some(e) => expression_names(e.get(), names),
    }
}

#[cycle(names)]
fn items_names(items: &[Item], names: &mut Vec<SharedBytes>) -> Result<(), AllocError>
    ensures { OnOk result (names.new.items ≡ names.old.items ++ names_in_items (joined_items (map item_of items.now))) }
{
    for item in items {
        item_names(item, names)?;
    }
    Ok(())
}

#[cycle(names)]
fn item_names(item: &Item, names: &mut Vec<SharedBytes>) -> Result<(), AllocError>
    ensures { OnOk result
        ((more : Items) → names.new.items ++ names_in_items more ≡ names.old.items ++ names_in_items (item_of item.now more)) }
{
    match item {
        Item::Plain(e) => expression_names(e, names),
        Item::Keyword(_, e) => expression_names(e, names),
        Item::Triplet(lower, upper, stride) => {
            boxed_names(lower, names)?;
            boxed_names(upper, names)?;
            boxed_names(stride, names)
        }
    }
}

#[cycle(names)]
fn values_names(values: &[Value], names: &mut Vec<SharedBytes>) -> Result<(), AllocError>
    ensures { OnOk result (names.new.items ≡ names.old.items ++ names_in_values (joined_values (map value_of values.now))) }
{
    for value in values {
        value_names(value, names)?;
    }
    Ok(())
}

#[cycle(names)]
fn value_names(value: &Value, names: &mut Vec<SharedBytes>) -> Result<(), AllocError>
    ensures { OnOk result
        ((more : Values) → names.new.items ++ names_in_values more ≡ names.old.items ++ names_in_values (value_of value.now more)) }
{
    match value {
        Value::One(e) => expression_names(e, names),
        Value::ImpliedDo(values, name, first, last, step) => {
            add_name(name, names)?;
            values_names(values.get().as_slice(), names)?;
            expression_names(first.get(), names)?;
            expression_names(last.get(), names)?;
            boxed_names(step, names)
        }
    }
}
