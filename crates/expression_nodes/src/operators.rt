//! Bounds and operators of typed operands.
ghost use Rattle.std.specs.Prelude.{◌≡◌};
ghost use Rattle.f95_unit.specs.View.{expr_of, bound_of};
ghost use Rattle.shape_check.specs.Nodes as spec;
ghost use Rattle.expression_nodes.specs.Made.{IsMadeAs};

use crate::missing::Missing;
use f95_tree::Sign;
use f95_unit::{Bound, Expr, Node};
use sqlite_items::Boxed;
use std::alloc::Global;
use type_rules::{bounds, signs};
use typed_facts::{signed_facts, unary_of};

/// A bound that is given.
pub fn bounding(alloc: Global, e: Expr) -> Result<Bound, Missing>
    ensures { IsMadeAs bound_of (spec.bounding (expr_of e)) result }
{
    match bounds(&e.facts) {
        None => Ok(Bound::Given(Boxed::new(alloc, e)?)),
        Some(rule) => Err(Missing::Broken(rule)),
    }
}

/// A sign before an operand.
pub fn signed(alloc: Global, sign: Sign, e: Expr) -> Result<Expr, Missing>
    ensures { IsMadeAs expr_of (spec.signed sign (expr_of e)) result }
{
    match signs(sign, &e.facts) {
        None => {
            let facts = signed_facts(alloc, sign, &e.facts)?;
            Ok(Expr {
                facts,
                node: Node::Unary(unary_of(sign), Boxed::new(alloc, e)?),
            })
        }
        Some(rule) => Err(Missing::Broken(rule)),
    }
}
