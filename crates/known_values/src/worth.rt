//! Values of constant expressions: literals, named constants, operators, elemental intrinsics.
ghost use Rattle.std.specs.Prelude.{◌≡◌, slice_get, IfOk};
ghost use Rattle.f95_unit.specs.View.{expr_of, bound_of};
ghost use Rattle.proc_calls.specs.View.{arguments_of};
ghost use Rattle.names_types.specs.Rules as rules;
ghost use Rattle.well_typed.specs.Known as spec;

use a95_base::Scalar;
use constant_operators::{Valued, Worth, worth_of_one, worth_of_two};
use elemental_values::{copy_scalar, elemental_worth};
use f95_unit::{Argument, Bound, Expr, Node};
use std::alloc::{AllocError, Global};
use typed_facts::{each, intrinsic_of, operator_of, sign_of};

fn constant_worth(alloc: Global, constants: &[Scalar], number: u32) -> Result<Worth, AllocError>
    ensures { IfOk result (λ w. w ≡ spec.worth_at (slice_get constants.now number)) }
{
    match constants.get(number as usize) {
        None => Ok(Worth::Unknown),
        Some(x) => Ok(Worth::Is(copy_scalar(alloc, x)?)),
    }
}

/// The value of an expression, where the source tells it.
#[cycle(values)]
pub fn worth_of(alloc: Global, constants: &[Scalar], e: &Expr) -> Result<Worth, AllocError>
    ensures { IfOk result (λ w. w ≡ spec.worth_of constants.now (expr_of e.now)) }
{
    match &e.node {
        Node::Literal(x) => Ok(Worth::Is(copy_scalar(alloc, x)?)),
        Node::Constant(number) => constant_worth(alloc, constants, *number),
        Node::Brackets(inner) => worth_of(alloc, constants, inner.get()),
        Node::Unary(op, inner) => {
            let worth = worth_of(alloc, constants, inner.get())?;
            Ok(worth_of_one(sign_of(*op), worth))
        }
        Node::Binary(op, left, right) => {
            let x = worth_of(alloc, constants, left.get())?;
            let y = worth_of(alloc, constants, right.get())?;
            worth_of_two(alloc, operator_of(*op), &x, &y)
        }
        Node::Elemental(which, es) => {
            let seen = seen_in(alloc, constants, es.as_slice())?;
            elemental_worth(alloc, intrinsic_of(*which), seen.as_slice())
        }
        Node::Index(_) | Node::Designator(_) | Node::Constructor(_) | Node::Trim(_) => Ok(
            Worth::Unknown,
        ),
        Node::Inquiry(..) | Node::Reduction(..) | Node::Rearranging(..) | Node::Call(_) => Ok(
            Worth::Unknown,
        ),
    }
}

#[cycle(values)]
fn seen_in(
    alloc: Global,
    constants: &[Scalar],
    es: &[Argument],
) -> Result<Vec<(usize, Valued)>, AllocError>
    ensures { IfOk result (λ seen. seen.items ≡ spec.seen_in constants.now (arguments_of es.now)) }
{
    let mut seen = Vec::new(alloc);
    for a in es {
        let worth = worth_of(alloc, constants, &a.value)?;
        let valued = Valued {
            facts: each(&a.value.facts),
            worth,
        };
        seen.push((a.place as usize, valued))?;
    }
    Ok(seen)
}

fn integer_in(worth: &Worth) -> Option<i32>
    ensures { result ≡ rules.integer_in worth.now }
{
    match worth {
        Worth::Is(Scalar::Int(z)) => Some(*z),
        Worth::Is(_) => None,
        Worth::Spoilt => None,
        Worth::Unknown => None,
    }
}

/// The value of an INTEGER expression, where the source tells it.
pub fn integer_known(
    alloc: Global,
    constants: &[Scalar],
    e: &Expr,
) -> Result<Option<i32>, AllocError>
    ensures { IfOk result (λ z. z ≡ spec.integer_known constants.now (expr_of e.now)) }
{
    let worth = worth_of(alloc, constants, e)?;
    Ok(integer_in(&worth))
}

/// A bound, and what stands for it where it is left out.
pub fn bound_known(
    alloc: Global,
    constants: &[Scalar],
    left_out: Option<i32>,
    bound: &Bound,
) -> Result<Option<i32>, AllocError>
    ensures { IfOk result (λ z. z ≡ spec.bound_known constants.now left_out (bound_of bound.now)) }
{
    match bound {
        Bound::Absent => Ok(left_out),
        Bound::Given(e) => integer_known(alloc, constants, e.get()),
    }
}
