//! Expressions with a bracket around each operation, as text.

use f95_tree::{
    Action, Expression, Form, Item, Literal, Operator, Reference, Relation, Sign, Value,
};
use sqlite_items::Boxed;
use std::alloc::AllocError;
use std::fmt::Write;

fn operator(operator: Operator) -> &'static str {
    match operator {
        Operator::Power => "**",
        Operator::Multiply => "*",
        Operator::Divide => "/",
        Operator::Add => "+",
        Operator::Subtract => "-",
        Operator::Concat => "//",
        Operator::Relation(Relation::Equal) => "==",
        Operator::Relation(Relation::NotEqual) => "/=",
        Operator::Relation(_) => "<",
        Operator::And => "&",
        Operator::Or => "|",
        Operator::Equivalent => "~",
        Operator::NotEquivalent => "^",
    }
}

fn sign(sign: Sign) -> &'static str {
    match sign {
        Sign::Plus => "+",
        Sign::Minus => "-",
        Sign::Not => "!",
    }
}

fn put_bytes(out: &mut String, bytes: &[u8]) -> Result<(), AllocError> {
    for b in bytes {
        out.push(char::from(*b))?;
    }
    Ok(())
}

fn put_literal(out: &mut String, literal: &Literal) -> Result<(), AllocError> {
    match literal {
        Literal::Number(n) => write!(out, "{n}"),
        Literal::Text(text) => put_bytes(out, text.as_slice()),
        Literal::Logical(true) => out.push_str("T"),
        Literal::Logical(false) => out.push_str("F"),
    }
}

#[cycle(shown)]
pub fn put(out: &mut String, expression: &Expression) -> Result<(), AllocError> {
    match expression {
        Expression::Literal(literal) => put_literal(out, literal),
        Expression::Reference(reference) => put_reference(out, reference),
        Expression::Bracketed(inner) => {
            out.push_str("(")?;
            put(out, inner.get())?;
            out.push_str(")")
        }
        Expression::Constructor(values) => {
            out.push_str("(/")?;
            for value in values.as_slice() {
                put_value(out, value)?;
                out.push_str(";")?;
            }
            out.push_str("/)")
        }
        Expression::Signed(s, inner) => {
            out.push_str("[")?;
            out.push_str(sign(*s))?;
            put(out, inner.get())?;
            out.push_str("]")
        }
        Expression::Binary(op, left, right) => {
            out.push_str("[")?;
            put(out, left.get())?;
            out.push_str(operator(*op))?;
            put(out, right.get())?;
            out.push_str("]")
        }
    }
}

#[cycle(shown)]
fn put_item(out: &mut String, item: &Item) -> Result<(), AllocError> {
    match item {
        Item::Plain(inner) => put(out, inner),
        Item::Keyword(name, inner) => {
            put_bytes(out, name.as_slice())?;
            out.push_str("=")?;
            put(out, inner)
        }
        Item::Triplet(lower, upper, stride) => {
            match lower {
                None => out.push_str("_")?,
                Some(lower) => put(out, lower.get())?,
            }
            out.push_str(":")?;
            match upper {
                None => out.push_str("_")?,
                Some(upper) => put(out, upper.get())?,
            }
            out.push_str(":")?;
            match stride {
                None => out.push_str("_")?,
                Some(stride) => put(out, stride.get())?,
            }
            Ok(())
        }
    }
}

#[cycle(shown)]
fn put_reference(out: &mut String, reference: &Reference) -> Result<(), AllocError> {
    match reference {
        Reference::Whole(name) => put_bytes(out, name.as_slice()),
        Reference::Items(name, items) => {
            put_bytes(out, name.as_slice())?;
            out.push_str("(")?;
            for item in items.get().as_slice() {
                put_item(out, item)?;
                out.push_str(";")?;
            }
            out.push_str(")")
        }
        Reference::Substring(name, items, range) => {
            put_bytes(out, name.as_slice())?;
            out.push_str("(")?;
            for item in items.get().as_slice() {
                put_item(out, item)?;
                out.push_str(";")?;
            }
            out.push_str(")")?;
            let range = range.get();
            match &range.0 {
                None => out.push_str("_")?,
                Some(lower) => put(out, lower)?,
            }
            out.push_str("..")?;
            match &range.1 {
                None => out.push_str("_")?,
                Some(upper) => put(out, upper)?,
            }
            Ok(())
        }
    }
}

#[cycle(shown)]
fn put_value(out: &mut String, value: &Value) -> Result<(), AllocError> {
    match value {
        Value::One(inner) => put(out, inner),
        Value::ImpliedDo(values, name, first, last, step) => {
            for value in values.get().as_slice() {
                put_value(out, value)?;
                out.push_str(",")?;
            }
            put_bytes(out, name.as_slice())?;
            put(out, first.get())?;
            out.push_str(":")?;
            put(out, last.get())?;
            out.push_str(":")?;
            match step {
                None => out.push_str("_")?,
                Some(step) => put(out, step.get())?,
            }
            Ok(())
        }
    }
}

/// The right side of an assignment.
pub fn put_right_side(out: &mut String, form: &Form) -> Result<(), AllocError> {
    match form {
        Form::Action(Action::Assignment(assignment)) => put(out, &assignment.get().value),
        _ => Ok(()),
    }
}
