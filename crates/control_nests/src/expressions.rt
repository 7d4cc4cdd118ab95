//! Expressions.
ghost use Rattle.std.specs.Prelude.{◌≡◌, IfOk};
ghost use Rattle.f95_unit.specs.Plain.{Arguments, argument};
ghost use Rattle.f95_unit.specs.View.{expr_of, line_of};
ghost use Rattle.proc_calls.specs.View.{argument_of, arguments_of};
ghost use Rattle.control_lower.specs.Trees as made;
ghost use Rattle.control_nests.specs.View.{lowered_of, all_of, all_then};

use crate::made::{
    Lowered, LoweredAll, binary, leaf, length_of, literal, named, of_all, sort_of, trimmed, unary,
    with_argument,
};
use a95_base::Line;
use f95_unit::{Argument, Expr, Node, Subject};
use nest_tree::{Sort, Tree};
use sqlite_items::Items;
use std::alloc::{AllocError, Global};

/// An expression in its parts, behind the scalars that are taken.
#[cycle(expressions)]
pub fn lowered(
    alloc: Global,
    line: Line,
    taken: Items<Sort>,
    e: &Expr,
) -> Result<Lowered, AllocError>
    ensures { IfOk result (λ r. lowered_of r ≡ made.lowered (line_of line) taken (expr_of e.now)) }
{
    match &e.node {
        Node::Literal(x) => literal(alloc, x, taken),
        Node::Constant(n) => Ok(leaf(alloc, Tree::Constant(*n), taken)),
        Node::Designator(d) => Ok(named(alloc, d, taken)),
        Node::Brackets(inner) => lowered(alloc, line, taken, inner.get()),
        Node::Unary(op, inner) => {
            let l = lowered(alloc, line, taken, inner.get())?;
            unary(alloc, *op, l)
        }
        Node::Binary(op, left, right) => {
            let first = lowered(alloc, line, taken, left.get())?;
            let Lowered {
                parts,
                tree,
                scalars,
            } = first;
            match lowered(alloc, line, scalars, right.get()) {
                Ok(second) => binary(alloc, *op, parts, tree, second),
                Err(e) => {
                    drop(parts);
                    drop(tree);
                    Err(e)
                }
            }
        }
        Node::Elemental(which, es) => {
            let l = arguments(alloc, line, taken, es.as_slice())?;
            of_all(line, sort_of(e), *which, l)
        }
        Node::Trim(inner) => {
            let l = lowered(alloc, line, taken, inner.get())?;
            trimmed(alloc, line, l)
        }
        Node::Inquiry(_, _, Subject::Name(n)) => length_of(alloc, *n, taken),
        Node::Inquiry(_, _, Subject::Of(_))
        | Node::Index(_)
        | Node::Constructor(_)
        | Node::Reduction(..)
        | Node::Rearranging(..)
        | Node::Call(_) => Ok(leaf(alloc, Tree::Number(0), taken)),
    }
}

/// One argument more, by its place and its value.
#[cycle(expressions)]
fn with_value(
    alloc: Global,
    line: Line,
    all: LoweredAll,
    place: u32,
    value: &Expr,
) -> Result<LoweredAll, AllocError>
    ensures { IfOk result (λ r. (more : Arguments) →
        all_then (line_of line) r more ≡ all_then (line_of line) all (argument place (expr_of value.now) more)) }
{
    let LoweredAll {
        parts,
        operands,
        scalars,
    } = all;
    match lowered(alloc, line, scalars, value) {
        Ok(l) => with_argument(line, sort_of(value), place, parts, operands, l),
        Err(e) => {
            drop(parts);
            drop(operands);
            Err(e)
        }
    }
}

/// One argument more.
#[cycle(expressions)]
fn argument(
    alloc: Global,
    line: Line,
    all: LoweredAll,
    a: &Argument,
) -> Result<LoweredAll, AllocError>
    ensures { IfOk result (λ r. (more : Arguments) →
        all_then (line_of line) r more ≡ all_then (line_of line) all (argument_of a.now more)) }
{
    Ok(with_value(alloc, line, all, a.place, &a.value)?)
}

#[cycle(expressions)]
fn arguments(
    alloc: Global,
    line: Line,
    taken: Items<Sort>,
    es: &[Argument],
) -> Result<LoweredAll, AllocError>
    ensures { IfOk result (λ r. all_of r ≡ made.arguments (line_of line) taken (arguments_of es.now)) }
{
    let mut all = LoweredAll {
        parts: Items::new(alloc),
        operands: Items::new(alloc),
        scalars: taken,
    };
    for a in es {
        all = argument(alloc, line, all, a)?;
    }
    Ok(all)
}
