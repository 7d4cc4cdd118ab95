//! What the declarations of a unit tell of its variables and its procedures.
ghost use Rattle.std.specs.Prelude.{◌≡◌, map, replicate, IfOk};
ghost use Rattle.f95_unit.specs.View.{bound_of, span_of, bounds_of, entity_of, procedure_of};
ghost use Rattle.well_typed.specs.declared.known.Dim.{Dim};
ghost use Rattle.well_typed.specs.Known.{dim};
ghost use Rattle.well_typed.specs.Entities as spec;

use crate::worth::{bound_known, integer_known};
use a95_base::Scalar;
use f95_unit::{Bound, Bounds, Entity, Facts, Intent, Procedure, Role, Span};
use proc_calls::{interface_of, kind_of, known_length};
use sqlite_items::Items;
use std::alloc::{AllocError, Global};
use typed_facts::declared_extents;
use well_typed::{Callee, Dim, Variable};

fn is_input(role: Role) -> bool
    ensures { result ≡ spec.is_input role }
{
    match role {
        Role::Own => false,
        Role::Dummy(_, Intent::In) => true,
        Role::Dummy(_, _) => false,
    }
}

fn is_deferred(bounds: &Bounds) -> bool
    ensures { result ≡ spec.is_deferred (bounds_of bounds.now) }
{
    match bounds {
        Bounds::Deferred(_) => true,
        _ => false,
    }
}

fn span_dim(alloc: Global, constants: &[Scalar], s: &Span) -> Result<Dim, AllocError>
    ensures { IfOk result (λ d. d ≡ spec.span_dim constants.now (span_of s.now)) }
{
    let lower = bound_known(alloc, constants, Some(1), &s.lower)?;
    let upper = integer_known(alloc, constants, &s.upper)?;
    Ok(Dim { lower, upper })
}

fn explicit_dims(
    alloc: Global,
    constants: &[Scalar],
    spans: &[Span],
) -> Result<Items<Dim>, AllocError>
    ensures { IfOk result (λ dims. dims ≡ map (spec.span_dim constants.now) (map span_of spans.now)) }
{
    let mut dims = Items::new(alloc);
    for s in spans {
        dims.push(span_dim(alloc, constants, s)?)?;
    }
    Ok(dims)
}

fn assumed_dim(alloc: Global, constants: &[Scalar], lower: &Bound) -> Result<Dim, AllocError>
    ensures { IfOk result (λ d. d ≡ spec.assumed_dim constants.now (bound_of lower.now)) }
{
    let lower = bound_known(alloc, constants, Some(1), lower)?;
    Ok(Dim { lower, upper: None })
}

fn assumed_dims(
    alloc: Global,
    constants: &[Scalar],
    lowers: &[Bound],
) -> Result<Items<Dim>, AllocError>
    ensures { IfOk result (λ dims. dims ≡ map (spec.assumed_dim constants.now) (map bound_of lowers.now)) }
{
    let mut dims = Items::new(alloc);
    for lower in lowers {
        dims.push(assumed_dim(alloc, constants, lower)?)?;
    }
    Ok(dims)
}

fn unknown_dims(alloc: Global, rank: usize) -> Result<Items<Dim>, AllocError>
    ensures { IfOk result (λ dims. dims ≡ replicate rank spec.unknown_dim) }
{
    let mut dims = Items::new(alloc);
    for _dimension in 0..rank {
        dims.push(Dim {
            lower: None,
            upper: None,
        })?;
    }
    Ok(dims)
}

fn known_dims(
    alloc: Global,
    constants: &[Scalar],
    bounds: &Bounds,
) -> Result<Items<Dim>, AllocError>
    ensures { IfOk result (λ dims. dims ≡ spec.known_dims constants.now (bounds_of bounds.now)) }
{
    match bounds {
        Bounds::None => Ok(Items::new(alloc)),
        Bounds::Explicit(spans) => explicit_dims(alloc, constants, spans.as_slice()),
        Bounds::Assumed(lowers) => assumed_dims(alloc, constants, lowers.as_slice()),
        Bounds::Deferred(rank) => unknown_dims(alloc, usize::from(*rank)),
    }
}

/// A variable, by its declaration.
pub fn variable_of(alloc: Global, constants: &[Scalar], e: &Entity) -> Result<Variable, AllocError>
    ensures { IfOk result (λ v. v ≡ spec.variable_of constants.now (entity_of e.now)) }
{
    Ok(Variable {
        kind: kind_of(e.of),
        length: known_length(e.of),
        dims: known_dims(alloc, constants, &e.bounds)?,
        allocatable: is_deferred(&e.bounds),
        input: is_input(e.role),
    })
}

/// The variables of a procedure.
pub fn variables_of(
    alloc: Global,
    constants: &[Scalar],
    entities: &[Entity],
) -> Result<Items<Variable>, AllocError>
    ensures { IfOk result (λ vs. vs ≡ spec.variables_of constants.now (map entity_of entities.now)) }
{
    let mut variables = Items::new(alloc);
    for e in entities {
        variables.push(variable_of(alloc, constants, e)?)?;
    }
    Ok(variables)
}

fn result_facts(alloc: Global, v: &Variable) -> Result<Facts, AllocError>
    ensures { IfOk result (λ f. f ≡ spec.result_facts v.now) }
{
    Ok(Facts {
        kind: v.kind,
        length: None,
        extents: declared_extents(alloc, v.dims.as_slice())?,
    })
}

fn result_of(
    alloc: Global,
    constants: &[Scalar],
    p: &Procedure,
) -> Result<Option<Facts>, AllocError>
    ensures { IfOk result (λ f. f ≡ spec.result_of constants.now (procedure_of p.now)) }
{
    let Some(number) = p.result else {
        return Ok(None);
    };
    let variables = variables_of(alloc, constants, p.entities.as_slice())?;
    match variables.get(number as usize) {
        None => Ok(None),
        Some(v) => Ok(Some(result_facts(alloc, v)?)),
    }
}

/// What a reference sees of a procedure, and what its result is.
pub fn callee_of(alloc: Global, constants: &[Scalar], p: &Procedure) -> Result<Callee, AllocError>
    ensures { IfOk result (λ c. c ≡ spec.callee_of constants.now (procedure_of p.now)) }
{
    let interface = interface_of(alloc, p)?;
    let result = result_of(alloc, constants, p)?;
    Ok(Callee { interface, result })
}

/// The same of each procedure.
pub fn callees_of(
    alloc: Global,
    constants: &[Scalar],
    procedures: &[Procedure],
) -> Result<Items<Callee>, AllocError>
    ensures { IfOk result (λ cs. cs ≡ spec.callees_of constants.now (map procedure_of procedures.now)) }
{
    let mut callees = Items::new(alloc);
    for p in procedures {
        callees.push(callee_of(alloc, constants, p)?)?;
    }
    Ok(callees)
}
