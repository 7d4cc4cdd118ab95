//! What trees of the reader are in the first form (`specs/Forms.antt`). Names stay where they stand in the tree.
ghost use Rattle.std.specs.Prelude.{◌≡◌, []};
ghost use Rattle.rank_one.specs.Forms.{Gives, natural_in, number_in, whole, term_in, factor_in, one_factor, multiplied, added};
ghost use Rattle.rank_one.specs.Forms.{joined, sum_in, sole_factor, name_in, names_from, print_in, assignment_in, action_in};
ghost use Rattle.rank_one.specs.Forms.{named_in, statement_line, constant_in, bound_in, extent_in, array_in, arrays_from};
ghost use Rattle.rank_one.specs.Forms.{is_integer, arrays_in};

use crate::failure::Failure;
use crate::form::{NamedAction, NamedAddend, NamedArray, NamedFactor, NamedSum, NamedTerm};
use crate::name::Name;
use f95_tree::{
    Action, Declaration, Dim, Entity, Expression, Literal, Operator, Reference, Statement, TypeSpec,
};
use sqlite_items::Items;
use std::alloc::Global;

fn natural(n: i32) -> Result<u32, Failure>
    ensures { Gives (λ x. x) result (natural_in n) }
{
    if n < 0 {
        return Err(Failure::OtherForm);
    }
    Ok(n as u32)
}

fn number(literal: &Literal) -> Result<u32, Failure>
    ensures { Gives (λ x. x) result (number_in literal.now) }
{
    match literal {
        Literal::Number(n) => natural(*n),
        _ => Err(Failure::OtherForm),
    }
}

fn whole<'a>(reference: &'a Reference) -> Result<Name<'a>, Failure>
    ensures { Gives (λ x. x) result (whole reference.now) }
{
    match reference {
        Reference::Whole(name) => Ok(Name::new(name.as_slice())),
        _ => Err(Failure::OtherForm),
    }
}

fn term<'a>(sum: NamedSum<'a>) -> Result<NamedTerm<'a>, Failure>
    ensures { Gives (λ x. x) result (term_in sum.entry) }
{
    let NamedSum { first, rest } = sum;
    if !rest.is_empty() {
        return Err(Failure::OtherForm);
    }
    Ok(first)
}

fn factor<'a>(term: NamedTerm<'a>) -> Result<NamedFactor<'a>, Failure>
    ensures { Gives (λ x. x) result (factor_in term.entry) }
{
    let NamedTerm { first, rest } = term;
    if !rest.is_empty() {
        return Err(Failure::OtherForm);
    }
    Ok(first)
}

fn one_factor<'a>(alloc: Global, factor: NamedFactor<'a>) -> NamedSum<'a>
    ensures { result ≡ one_factor factor.entry }
{
    NamedSum {
        first: NamedTerm {
            first: factor,
            rest: Items::new(alloc),
        },
        rest: Items::new(alloc),
    }
}

fn multiplied<'a>(
    alloc: Global,
    left: NamedSum<'a>,
    right: NamedSum<'a>,
) -> Result<NamedSum<'a>, Failure>
    ensures { Gives (λ x. x) result (multiplied left.entry right.entry) }
{
    let mut first = term(left)?;
    let right = term(right)?;
    first.rest.push(factor(right)?)?;
    Ok(NamedSum {
        first,
        rest: Items::new(alloc),
    })
}

fn added<'a>(minus: bool, left: NamedSum<'a>, right: NamedSum<'a>) -> Result<NamedSum<'a>, Failure>
    ensures { Gives (λ x. x) result (added minus left.entry right.entry) }
{
    let mut sum = left;
    let term = term(right)?;
    sum.rest.push(NamedAddend { minus, term })?;
    Ok(sum)
}

fn joined<'a>(
    alloc: Global,
    operator: Operator,
    left: NamedSum<'a>,
    right: NamedSum<'a>,
) -> Result<NamedSum<'a>, Failure>
    ensures { Gives (λ x. x) result (joined operator left.entry right.entry) }
{
    match operator {
        Operator::Multiply => multiplied(alloc, left, right),
        Operator::Add => added(false, left, right),
        Operator::Subtract => added(true, left, right),
        _ => Err(Failure::OtherForm),
    }
}

/// A sum of terms of factors. Goes as deep as the tree.
fn sum<'a>(alloc: Global, expression: &'a Expression) -> Result<NamedSum<'a>, Failure>
    ensures { Gives (λ x. x) result (sum_in expression.now) }
{
    match expression {
        Expression::Literal(literal) => {
            Ok(one_factor(alloc, NamedFactor::Number(number(literal)?)))
        }
        Expression::Reference(reference) => {
            Ok(one_factor(alloc, NamedFactor::Name(whole(reference)?)))
        }
        Expression::Binary(operator, left, right) => {
            let left = sum(alloc, left.get())?;
            let right = sum(alloc, right.get())?;
            joined(alloc, *operator, left, right)
        }
        _ => Err(Failure::OtherForm),
    }
}

fn sole_factor<'a>(alloc: Global, expression: &'a Expression) -> Result<NamedFactor<'a>, Failure>
    ensures { Gives (λ x. x) result (sole_factor expression.now) }
{
    let sum = sum(alloc, expression)?;
    let term = term(sum)?;
    factor(term)
}

fn name<'a>(alloc: Global, expression: &'a Expression) -> Result<Name<'a>, Failure>
    ensures { Gives (λ x. x) result (name_in expression.now) }
{
    match sole_factor(alloc, expression)? {
        NamedFactor::Name(name) => Ok(name),
        NamedFactor::Number(_) => Err(Failure::OtherForm),
    }
}

fn constant(alloc: Global, expression: &Expression) -> Result<u32, Failure>
    ensures { Gives (λ x. x) result (constant_in expression.now) }
{
    match sole_factor(alloc, expression)? {
        NamedFactor::Name(_) => Err(Failure::OtherForm),
        NamedFactor::Number(number) => Ok(number),
    }
}

fn names<'a>(alloc: Global, expressions: &'a [Expression]) -> Result<Items<Name<'a>>, Failure>
    ensures { Gives (λ x. x) result (names_from [] expressions.now) }
{
    let mut names = Items::new(alloc);
    for expression in expressions {
        names.push(name(alloc, expression)?)?;
    }
    Ok(names)
}

fn print<'a>(alloc: Global, expressions: &'a [Expression]) -> Result<NamedAction<'a>, Failure>
    ensures { Gives (λ x. x) result (print_in expressions.now) }
{
    match expressions {
        [] => Err(Failure::OtherForm),
        [first, rest @ ..] => {
            let first = name(alloc, first)?;
            let rest = names(alloc, rest)?;
            Ok(NamedAction::Print { first, rest })
        }
    }
}

fn assignment<'a>(
    alloc: Global,
    to: &'a Reference,
    value: &'a Expression,
) -> Result<NamedAction<'a>, Failure>
    ensures { Gives (λ x. x) result (assignment_in to.now value.now) }
{
    let target = whole(to)?;
    let value = sum(alloc, value)?;
    Ok(NamedAction::Assign { target, value })
}

fn action<'a>(alloc: Global, action: &'a Action) -> Result<NamedAction<'a>, Failure>
    ensures { Gives (λ x. x) result (action_in action.now) }
{
    match action {
        Action::Assignment(assigned) => {
            let assigned = assigned.get();
            assignment(alloc, &assigned.to, &assigned.value)
        }
        Action::Print(expressions) => print(alloc, expressions.as_slice()),
        _ => Err(Failure::OtherForm),
    }
}

/// What a statement does.
pub fn statement<'a>(alloc: Global, statement: &'a Statement) -> Result<NamedAction<'a>, Failure>
    ensures { Gives (λ x. x) result (named_in statement.now) }
{
    match statement {
        Statement::Action(_, done) => action(alloc, done),
        _ => Err(Failure::OtherForm),
    }
}

/// The line of a statement, or of the first statement of a block.
pub fn line(statement: &Statement) -> u32
    ensures { result ≡ statement_line statement.now }
{
    match statement {
        Statement::Action(line, _) => line.0,
        Statement::If(line, _, _) => line.0,
        Statement::IfBlock(line, _, _, _, _, _, _) => line.0,
        Statement::Select(line, _, _, _, _) => line.0,
        Statement::Do(line, _, _, _, _) => line.0,
        Statement::Where(block) => block.line.0,
        Statement::Forall(line, _, _, _) => line.0,
    }
}

fn bound(alloc: Global, dim: &Dim) -> Result<u32, Failure>
    ensures { Gives (λ x. x) result (bound_in dim.now) }
{
    match dim {
        Dim::Upper(upper) => constant(alloc, upper),
        _ => Err(Failure::OtherForm),
    }
}

fn extent(alloc: Global, dims: &[Dim]) -> Result<u32, Failure>
    ensures { Gives (λ x. x) result (extent_in dims.now) }
{
    match dims {
        [dim] => bound(alloc, dim),
        _ => Err(Failure::OtherForm),
    }
}

fn array<'a>(alloc: Global, entity: &'a Entity) -> Result<NamedArray<'a>, Failure>
    ensures { Gives (λ x. x) result (array_in entity.now) }
{
    match (&entity.dims, &entity.initial) {
        (Some(dims), None) => {
            let extent = extent(alloc, dims.as_slice())?;
            Ok(NamedArray {
                name: Name::new(entity.name.as_slice()),
                extent,
            })
        }
        _ => Err(Failure::OtherForm),
    }
}

fn arrays<'a>(alloc: Global, entities: &'a [Entity]) -> Result<Items<NamedArray<'a>>, Failure>
    ensures { Gives (λ x. x) result (arrays_from [] entities.now) }
{
    let mut arrays = Items::new(alloc);
    for entity in entities {
        arrays.push(array(alloc, entity)?)?;
    }
    Ok(arrays)
}

fn is_integer(of: &TypeSpec) -> bool
    ensures { result ≡ is_integer of.now }
{
    match of {
        TypeSpec::Integer => true,
        _ => false,
    }
}

/// The arrays of a declaration.
pub fn declaration<'a>(
    alloc: Global,
    declaration: &'a Declaration,
) -> Result<Items<NamedArray<'a>>, Failure>
    ensures { Gives (λ x. x) result (arrays_in declaration.now) }
{
    if !is_integer(&declaration.of) || !declaration.attributes.is_empty() {
        return Err(Failure::OtherForm);
    }
    arrays(alloc, declaration.entities.as_slice())
}
