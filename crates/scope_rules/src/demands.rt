//! Expressions that have to be constant: lengths and bounds, and initial values.
ghost use Rattle.std.specs.Prelude.{◌≡◌, ◌∷◌, ◌++◌, List, [], map, ◌||◌, IfOk, OnOk, option_map};
ghost use Rattle.std.specs.List.{flat_map};
ghost use Rattle.a95_base.specs.declared.scalar.Kind.TheVariants as kind;
ghost use Rattle.names_types.specs.Plain.{Expr, Values};
ghost use Rattle.names_types.specs.Rules.{demand, bound_exprs, constant_bounds, element_exprs, has_loop, initial_exprs, length_exprs};
ghost use Rattle.names_types.specs.Rules.{value_exprs};
ghost use Rattle.names_types.specs.Scopes.{worth_in, is_constant, is_scalar};
ghost use Rattle.constant_operators.specs.Operators.{is_spoilt};
ghost use Rattle.names_types.specs.Constants.{valued};
ghost use Rattle.names_types.specs.View.{expr_of, dim_of, type_of, value_of, joined_values};
ghost use Rattle.declared_meanings.specs.Objects.{object_in};
ghost use Rattle.known_scopes.specs.View.{scope_of, senses_of};
ghost use Rattle.scope_rules.specs.declared.rules.DemandRule.TheVariants as of_demand;
ghost use Rattle.scope_rules.specs.Asking.{told_exprs, told_object};
ghost use Rattle.scope_rules.specs.Sites.{demand_test};
ghost use Rattle.scope_rules.specs.Told.{all_told};

use crate::agreement::{in_procedure, is_scalar};
use crate::asking::Asked;
use crate::bounds::is_valued;
use crate::rules::DemandRule;
use crate::telling::{demand_rule, tell};
use a95_base::{Break, Kind, Line};
use constant_operators::{Valued, Worth};
use constant_values::valued;
use declared_meanings::{dims, kind_of};
use f95_tree::{Declaration, Dim, Entity, Expression, Length, TypeSpec, Value};
use known_scopes::{AttributeSort, has_sort, is_settled};
use std::alloc::{AllocError, Global};

fn is_spoilt(valued: &Option<Valued>) -> bool
    ensures { result ≡ is_spoilt (worth_in valued.now) }
{
    match valued {
        None => false,
        Some(valued) => matches!(valued.worth, Worth::Spoilt),
    }
}

fn is_faulty(alloc: Global, asked: &Asked<'_, '_>, e: &Expression) -> Result<bool, AllocError>
    ensures { IfOk result (λ b. b ≡ is_spoilt (worth_in (valued (senses_of asked.now.senses) (expr_of e.now)))) }
{
    let value = valued(alloc, &asked.senses, e)?;
    let holds = is_spoilt(&value);
    drop(value);
    Ok(holds)
}

fn is_no_constant(
    alloc: Global,
    asked: &Asked<'_, '_>,
    kind: Kind,
    e: &Expression,
) -> Result<bool, AllocError>
    ensures { IfOk result
        (λ b. b ≡ demand_test of_demand.NotConstant (scope_of asked.now.known.now.scope)
        (demand asked.now.line kind (senses_of asked.now.senses) (expr_of e.now))) }
{
    if is_settled(alloc, asked.known, e)? {
        Ok(!is_valued(alloc, &asked.senses, kind, e)?)
    } else {
        Ok(false)
    }
}

fn breaks_rule(
    alloc: Global,
    asked: &Asked<'_, '_>,
    kind: Kind,
    e: &Expression,
) -> Result<bool, AllocError>
    ensures { IfOk result
        (λ b. b ≡ demand_test asked.now.rule (scope_of asked.now.known.now.scope)
        (demand asked.now.line kind (senses_of asked.now.senses) (expr_of e.now))) }
{
    match asked.rule {
        DemandRule::NotConstant => is_no_constant(alloc, asked, kind, e),
        DemandRule::ConstantFault => is_faulty(alloc, asked, e),
    }
}

/// An expression that has to be constant and of the kind.
fn tell_expr(
    alloc: Global,
    asked: &Asked<'_, '_>,
    kind: Kind,
    e: &Expression,
    breaks: &mut Option<Break>,
) -> Result<(), AllocError>
    ensures { OnOk result ((more : List Expr) → all_told breaks.new (told_exprs asked.now kind more)
        ≡ all_told breaks.old (told_exprs asked.now kind (expr_of e.now ∷ more))) }
{
    if breaks_rule(alloc, asked, kind, e)? {
        tell(demand_rule(asked.rule), asked.line, breaks);
    }
    Ok(())
}

fn tell_dim(
    alloc: Global,
    asked: &Asked<'_, '_>,
    dim: &Dim,
    breaks: &mut Option<Break>,
) -> Result<(), AllocError>
    ensures { OnOk result ((more : List Expr) → all_told breaks.new (told_exprs asked.now kind.Int more)
        ≡ all_told breaks.old (told_exprs asked.now kind.Int (bound_exprs (dim_of dim.now) ++ more))) }
{
    match dim {
        Dim::Upper(upper) => tell_expr(alloc, asked, Kind::Int, upper, breaks),
        Dim::Both(lower, upper) => {
            tell_expr(alloc, asked, Kind::Int, lower, breaks)?;
            tell_expr(alloc, asked, Kind::Int, upper, breaks)
        }
        Dim::Lower(lower) => tell_expr(alloc, asked, Kind::Int, lower, breaks),
        Dim::Deferred => Ok(()),
    }
}

fn tell_dims(
    alloc: Global,
    asked: &Asked<'_, '_>,
    dims: &[Dim],
    breaks: &mut Option<Break>,
) -> Result<(), AllocError>
    ensures { OnOk result
        (breaks.new ≡ all_told breaks.old (told_exprs asked.now kind.Int (flat_map bound_exprs (map dim_of dims.now)))) }
{
    for dim in dims {
        tell_dim(alloc, asked, dim, breaks)?;
    }
    Ok(())
}

/// Bounds, which in a procedure need not be constant.
fn tell_bounds(
    alloc: Global,
    asked: &Asked<'_, '_>,
    declaration: &(Line, Declaration),
    entity: &Entity,
    breaks: &mut Option<Break>,
) -> Result<(), AllocError>
    ensures { OnOk result
        (breaks.new ≡ all_told breaks.old (told_exprs asked.now kind.Int
        (constant_bounds (scope_of asked.now.known.now.scope) (object_in declaration.now entity.now)))) }
{
    if in_procedure(asked.known.scope.place) {
        Ok(())
    } else {
        tell_dims(alloc, asked, dims(declaration, entity), breaks)
    }
}

/// The length of a text.
pub fn tell_length(
    alloc: Global,
    asked: &Asked<'_, '_>,
    of: &TypeSpec,
    breaks: &mut Option<Break>,
) -> Result<(), AllocError>
    ensures { OnOk result
        (breaks.new ≡ all_told breaks.old (told_exprs asked.now kind.Int (length_exprs (type_of of.now)))) }
{
    match of {
        TypeSpec::Integer => Ok(()),
        TypeSpec::Logical => Ok(()),
        TypeSpec::Character(Length::One) => Ok(()),
        TypeSpec::Character(Length::Number(_)) => Ok(()),
        TypeSpec::Character(Length::Given(_, e)) => tell_one(alloc, asked, Kind::Int, e, breaks),
        TypeSpec::Character(Length::Assumed(_)) => Ok(()),
    }
}

#[tactic(auto, using(statement_names::proofs::Loops::loop_is))]
fn is_loop(value: &Value) -> bool
    ensures { (more : Values) → has_loop (value_of value.now more) ≡ (result || has_loop more) }
{
    match value {
        Value::One(_) => false,
        Value::ImpliedDo(_, _, _, _, _) => true,
    }
}

fn has_loop(values: &[Value]) -> bool
    ensures { result ≡ has_loop (joined_values (map value_of values.now)) }
{
    for value in values {
        if is_loop(value) {
            return true;
        }
    }
    false
}

#[tactic(auto, using(statement_names::proofs::Loops::loop_is))]
fn tell_value(
    alloc: Global,
    asked: &Asked<'_, '_>,
    kind: Kind,
    value: &Value,
    breaks: &mut Option<Break>,
) -> Result<(), AllocError>
    ensures { OnOk result ((more : Values) → all_told breaks.new (told_exprs asked.now kind (value_exprs more))
        ≡ all_told breaks.old (told_exprs asked.now kind (value_exprs (value_of value.now more)))) }
{
    match value {
        Value::One(e) => tell_expr(alloc, asked, kind, e, breaks),
        Value::ImpliedDo(_, _, _, _, _) => Ok(()),
    }
}

fn tell_values(
    alloc: Global,
    asked: &Asked<'_, '_>,
    kind: Kind,
    values: &[Value],
    breaks: &mut Option<Break>,
) -> Result<(), AllocError>
    ensures { OnOk result
        (breaks.new ≡ all_told breaks.old (told_exprs asked.now kind (value_exprs (joined_values (map value_of values.now))))) }
{
    for value in values {
        tell_value(alloc, asked, kind, value, breaks)?;
    }
    Ok(())
}

fn tell_one(
    alloc: Global,
    asked: &Asked<'_, '_>,
    kind: Kind,
    e: &Expression,
    breaks: &mut Option<Break>,
) -> Result<(), AllocError>
    ensures { OnOk result (breaks.new ≡ all_told breaks.old (told_exprs asked.now kind (expr_of e.now ∷ []))) }
{
    tell_expr(alloc, asked, kind, e, breaks)
}

/// The values of a constructor without implied DO, or the expression itself.
fn tell_elements(
    alloc: Global,
    asked: &Asked<'_, '_>,
    kind: Kind,
    e: &Expression,
    breaks: &mut Option<Break>,
) -> Result<(), AllocError>
    ensures { OnOk result (breaks.new ≡ all_told breaks.old (told_exprs asked.now kind (element_exprs (expr_of e.now)))) }
{
    match e {
        Expression::Constructor(values) => {
            if has_loop(values.as_slice()) {
                tell_one(alloc, asked, kind, e, breaks)
            } else {
                tell_values(alloc, asked, kind, values.as_slice(), breaks)
            }
        }
        Expression::Literal(_) => tell_one(alloc, asked, kind, e, breaks),
        Expression::Reference(_) => tell_one(alloc, asked, kind, e, breaks),
        Expression::Bracketed(_) => tell_one(alloc, asked, kind, e, breaks),
        Expression::Signed(_, _) => tell_one(alloc, asked, kind, e, breaks),
        Expression::Binary(_, _, _) => tell_one(alloc, asked, kind, e, breaks),
    }
}

fn is_single(declaration: &(Line, Declaration), entity: &Entity) -> bool
    ensures { result
        ≡ (is_constant (object_in declaration.now entity.now) || is_scalar (object_in declaration.now entity.now)) }
{
    has_sort(
        AttributeSort::Parameter,
        declaration.1.attributes.as_slice(),
    ) || is_scalar(declaration, entity)
}

fn tell_initial(
    alloc: Global,
    asked: &Asked<'_, '_>,
    declaration: &(Line, Declaration),
    entity: &Entity,
    kind: Kind,
    breaks: &mut Option<Break>,
) -> Result<(), AllocError>
    ensures { OnOk result
        (breaks.new ≡ all_told breaks.old (told_exprs asked.now kind
        (initial_exprs (object_in declaration.now entity.now) (option_map expr_of entity.now.initial)))) }
{
    match &entity.initial {
        None => Ok(()),
        Some(e) => {
            if is_single(declaration, entity) {
                tell_one(alloc, asked, kind, e, breaks)
            } else {
                tell_elements(alloc, asked, kind, e, breaks)
            }
        }
    }
}

/// What a declaration of a name has to have constant.
#[tactic(auto, using(crate::proofs::Lines::told_three))]
pub fn tell_object(
    alloc: Global,
    asked: &Asked<'_, '_>,
    declaration: &(Line, Declaration),
    entity: &Entity,
    breaks: &mut Option<Break>,
) -> Result<(), AllocError>
    ensures { OnOk result
        (breaks.new ≡ all_told breaks.old (told_object asked.now.rule (scope_of asked.now.known.now.scope) asked.now.line
        (senses_of asked.now.senses) (object_in declaration.now entity.now))) }
{
    let of = &declaration.1.of;
    tell_length(alloc, asked, of, breaks)?;
    tell_bounds(alloc, asked, declaration, entity, breaks)?;
    tell_initial(alloc, asked, declaration, entity, kind_of(of), breaks)
}
