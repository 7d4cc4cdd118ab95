//! Attributes that don't go together, or not with what a name is.
ghost use Rattle.std.specs.Prelude.{◌≡◌, ◌&&◌, ◌||◌, not, map, option_map};
ghost use Rattle.std.specs.List.{list_all, list_any};
ghost use Rattle.names_types.specs.Rules.{is_deferred, is_open, in_module, in_procedure, result_names, wrong_constant};
ghost use Rattle.names_types.specs.Rules.{wrong_allocatable, wrong_in_module, wrong_initial, wrong_open};
ghost use Rattle.names_types.specs.Scopes.{is_among, is_scalar, has_allocatable, is_constant};
ghost use Rattle.names_types.specs.View.{dim_of};
ghost use Rattle.declared_meanings.specs.Objects.{object_in};
ghost use Rattle.scope_entries.specs.View.{place_of};
ghost use Rattle.known_scopes.specs.View.{scope_of};
ghost use Rattle.scope_rules.specs.Results.{is_named};
ghost use Rattle.scope_rules.specs.Sites.{disagree};

use a95_base::{Line, SharedBytes};
use declared_meanings::dims;
use f95_tree::{Declaration, Dim, Entity};
use known_scopes::{AttributeSort, Known, has_one_twice, has_sort, is_dummy};
use scope_entries::{Place, result_name};

pub fn in_procedure(place: Place<'_>) -> bool
    ensures { result ≡ in_procedure (place_of place.entry) }
{
    match place {
        Place::InMain => false,
        Place::InModule => false,
        Place::InProcedure(_) => true,
    }
}

fn in_module(place: Place<'_>) -> bool
    ensures { result ≡ in_module (place_of place.entry) }
{
    match place {
        Place::InMain => false,
        Place::InModule => true,
        Place::InProcedure(_) => false,
    }
}

fn is_name(other: Option<&SharedBytes>, name: &SharedBytes) -> bool
    ensures { result ≡ is_named name.now (option_map (λ n. n.now) other.entry) }
{
    match other {
        None => false,
        Some(other) => *name == *other,
    }
}

/// Whether it is the name of the function's result.
#[tactic(auto, using(crate::proofs::Results::result_among))]
fn is_result(place: Place<'_>, name: &SharedBytes) -> bool
    ensures { result ≡ is_among (result_names (place_of place.entry)) name.now }
{
    match place {
        Place::InMain => false,
        Place::InModule => false,
        Place::InProcedure(procedure) => is_name(result_name(&procedure.procedure.heading), name),
    }
}

fn is_deferred(dim: &Dim) -> bool
    ensures { result ≡ is_deferred (dim_of dim.now) }
{
    match dim {
        Dim::Upper(_) => false,
        Dim::Both(..) => false,
        Dim::Lower(_) => false,
        Dim::Deferred => true,
    }
}

fn is_open(dim: &Dim) -> bool
    ensures { result ≡ is_open (dim_of dim.now) }
{
    match dim {
        Dim::Upper(_) => false,
        Dim::Both(..) => false,
        Dim::Lower(_) => true,
        Dim::Deferred => true,
    }
}

fn all_deferred(dims: &[Dim]) -> bool
    ensures { result ≡ list_all is_deferred (map dim_of dims.now) }
{
    for dim in dims {
        if !is_deferred(dim) {
            return false;
        }
    }
    true
}

fn all_open(dims: &[Dim]) -> bool
    ensures { result ≡ list_all is_open (map dim_of dims.now) }
{
    for dim in dims {
        if !is_open(dim) {
            return false;
        }
    }
    true
}

/// Whether a bound is `:` or `e :`.
pub fn some_open(dims: &[Dim]) -> bool
    ensures { result ≡ list_any is_open (map dim_of dims.now) }
{
    for dim in dims {
        if is_open(dim) {
            return true;
        }
    }
    false
}

fn is_constant(declaration: &(Line, Declaration), entity: &Entity) -> bool
    ensures { result ≡ is_constant (object_in declaration.now entity.now) }
{
    has_sort(
        AttributeSort::Parameter,
        declaration.1.attributes.as_slice(),
    )
}

fn has_allocatable(declaration: &(Line, Declaration), entity: &Entity) -> bool
    ensures { result ≡ has_allocatable (object_in declaration.now entity.now) }
{
    has_sort(
        AttributeSort::Allocatable,
        declaration.1.attributes.as_slice(),
    )
}

pub fn is_scalar(declaration: &(Line, Declaration), entity: &Entity) -> bool
    ensures { result ≡ is_scalar (object_in declaration.now entity.now) }
{
    dims(declaration, entity).len() == 0
}

/// PARAMETER without value or with bounds, or on a dummy or a result.
fn wrong_constant(
    known: &Known<'_>,
    name: &SharedBytes,
    declaration: &(Line, Declaration),
    entity: &Entity,
) -> bool
    ensures { result ≡ wrong_constant (scope_of known.now.scope) name.now (object_in declaration.now entity.now) }
{
    is_constant(declaration, entity)
        && (entity.initial.is_none()
            || (!is_scalar(declaration, entity)
                || (is_dummy(known, name) || is_result(known.scope.place, name))))
}

/// ALLOCATABLE on a dummy, without bounds, or with a bound other than `:`.
fn wrong_allocatable(
    known: &Known<'_>,
    name: &SharedBytes,
    declaration: &(Line, Declaration),
    entity: &Entity,
) -> bool
    ensures { result ≡ wrong_allocatable (scope_of known.now.scope) name.now (object_in declaration.now entity.now) }
{
    has_allocatable(declaration, entity)
        && (is_dummy(known, name)
            || (is_scalar(declaration, entity) || !all_deferred(dims(declaration, entity))))
}

fn wrong_in_module(known: &Known<'_>, declaration: &(Line, Declaration), entity: &Entity) -> bool
    ensures { result ≡ wrong_in_module (scope_of known.now.scope) (object_in declaration.now entity.now) }
{
    in_module(known.scope.place) && !is_constant(declaration, entity)
}

/// An initial value in a procedure.
fn wrong_initial(known: &Known<'_>, declaration: &(Line, Declaration), entity: &Entity) -> bool
    ensures { result ≡ wrong_initial (scope_of known.now.scope) (object_in declaration.now entity.now) }
{
    in_procedure(known.scope.place)
        && (entity.initial.is_some() && !is_constant(declaration, entity))
}

/// `:` or `e :` where none may stand.
fn wrong_open(
    known: &Known<'_>,
    name: &SharedBytes,
    declaration: &(Line, Declaration),
    entity: &Entity,
) -> bool
    ensures { result ≡ wrong_open (scope_of known.now.scope) name.now (object_in declaration.now entity.now) }
{
    let dims = dims(declaration, entity);
    some_open(dims)
        && (!(is_dummy(known, name) || has_allocatable(declaration, entity))
            || (is_dummy(known, name) && !all_open(dims)))
}

/// Whether the attributes of a declared name don't go together.
pub fn disagree(
    known: &Known<'_>,
    name: &SharedBytes,
    declaration: &(Line, Declaration),
    entity: &Entity,
) -> bool
    ensures { result ≡ disagree (scope_of known.now.scope) name.now (object_in declaration.now entity.now) }
{
    wrong_constant(known, name, declaration, entity)
        || (wrong_allocatable(known, name, declaration, entity)
            || (wrong_in_module(known, declaration, entity)
                || (wrong_initial(known, declaration, entity)
                    || (wrong_open(known, name, declaration, entity)
                        || has_one_twice(declaration.1.attributes.as_slice())))))
}
