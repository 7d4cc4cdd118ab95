//! Bounds that are specification expressions.
ghost use Rattle.std.specs.Prelude.{◌≡◌, ◌&&◌, not, map, IfOk};
ghost use Rattle.std.specs.List.{list_any, flat_map};
ghost use Rattle.a95_base.specs.declared.scalar.Kind.TheVariants as kind;
ghost use Rattle.names_types.specs.Constants.{valued};
ghost use Rattle.names_types.specs.Plain.{Expr};
ghost use Rattle.names_types.specs.Rules.{bound_exprs, has_kind, is_no_specification};
ghost use Rattle.names_types.specs.Scopes.{is_settled};
ghost use Rattle.names_types.specs.View.{expr_of, dim_of};
ghost use Rattle.known_scopes.specs.View.{scope_of};
ghost use Rattle.scope_rules.specs.Specifying.{is_none_of, said_by};

use a95_base::Kind;
use constant_operators::{Valued, is_kind};
use constant_values::{Senses, valued};
use f95_tree::{Dim, Expression};
use known_scopes::{SpecificationSenses, is_settled};
use std::alloc::{AllocError, Global};

pub fn has_kind(kind: Kind, valued: &Option<Valued>) -> bool
    ensures { result ≡ has_kind kind valued.now }
{
    match valued {
        None => false,
        Some(valued) => is_kind(kind, valued.facts.kind),
    }
}

/// Whether the value of the expression is of the kind.
pub fn is_valued<S: Senses>(
    alloc: Global,
    senses: &S,
    kind: Kind,
    e: &Expression,
) -> Result<bool, AllocError>
    ensures { IfOk result (λ b. b ≡ has_kind kind (valued (S.meant senses.now) (expr_of e.now))) }
{
    let value = valued(alloc, senses, e)?;
    let holds = has_kind(kind, &value);
    drop(value);
    Ok(holds)
}

/// Whether the expression is no specification expression.
fn is_none(
    alloc: Global,
    senses: &SpecificationSenses<'_, '_>,
    e: &Expression,
) -> Result<bool, AllocError>
    ensures { IfOk result (λ b. b ≡ is_none_of (scope_of senses.now.known.now.scope) (said_by senses.now) (expr_of e.now)) }
{
    if is_settled(alloc, senses.known, e)? {
        Ok(!is_valued(alloc, senses, Kind::Int, e)?)
    } else {
        Ok(false)
    }
}

fn none_in_dim(
    alloc: Global,
    senses: &SpecificationSenses<'_, '_>,
    dim: &Dim,
) -> Result<bool, AllocError>
    ensures { IfOk result
        (λ b. b ≡ list_any (is_none_of (scope_of senses.now.known.now.scope) (said_by senses.now)) (bound_exprs (dim_of dim.now))) }
{
    match dim {
        Dim::Upper(upper) => is_none(alloc, senses, upper),
        Dim::Both(lower, upper) => {
            if is_none(alloc, senses, lower)? {
                Ok(true)
            } else {
                is_none(alloc, senses, upper)
            }
        }
        Dim::Lower(lower) => is_none(alloc, senses, lower),
        Dim::Deferred => Ok(false),
    }
}

/// Whether some bound is no specification expression.
pub fn none_in_dims(
    alloc: Global,
    senses: &SpecificationSenses<'_, '_>,
    dims: &[Dim],
) -> Result<bool, AllocError>
    ensures { IfOk result
        (λ b. b ≡ list_any (is_none_of (scope_of senses.now.known.now.scope) (said_by senses.now))
        (flat_map bound_exprs (map dim_of dims.now))) }
{
    for dim in dims {
        if none_in_dim(alloc, senses, dim)? {
            return Ok(true);
        }
    }
    Ok(false)
}
