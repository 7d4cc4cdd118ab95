//! The sorts of element trees.
ghost use Rattle.std.specs.Prelude.{◌≡◌, ◌&&◌, ◌∷◌, if◌then◌else◌, nat_lt, is_some, slice_get, option_map, None, IfOk};
ghost use Rattle.nest_tree.specs.Plain.{Trees};
ghost use Rattle.nest_tree.specs.Sound.{fits_access, sort_of_name, sort_if, is_block, some_serves, both_serve, exact_sort};
ghost use Rattle.nest_tree.specs.Sound.{applied_sort, sort_of, sorts_of};
ghost use Rattle.nest_tree.specs.View.{procedure_of, tree_of};
ghost use Rattle.nest_tree.specs.declared.unit.Sort.TheVariants as sort;
ghost use Rattle.nest_sorts.specs.Seen.{scope_of, operand_of, trees_of};

use crate::accesses::{fits_access, is_loop};
use crate::dummies::applied_sort;
use crate::names::{block_at, is_block, question_sort, scalar_at, sort_of_name};
use crate::operators::{binary_sort, elemental_sort, exact_sort, unary_sort};
use crate::scope::Scope;
use crate::sorts::{
    both_serve, exact_fits, some_serves, sort_if, sort_of_constant, sort_of_scalar,
};
use nest_tree::{Access, Exact, Name, Operand, Sort, Tree};
use std::alloc::{AllocError, Global};

fn sort_read(scope: &Scope, access: &Access) -> Option<Sort>
    ensures { result ≡ (if fits_access (scope_of scope.now) access.now
        then sort_of_name (procedure_of scope.now.own.now) access.now.name else None) }
{
    if fits_access(scope, access) {
        sort_of_name(scope.own, access.name)
    } else {
        None
    }
}

fn sort_of_place(scope: &Scope, access: &Access) -> Option<Sort>
    ensures { result ≡ sort_if (fits_access (scope_of scope.now) access.now
        && is_some (sort_of_name (procedure_of scope.now.own.now) access.now.name)) sort.Exact }
{
    sort_if(
        fits_access(scope, access) && sort_of_name(scope.own, access.name).is_some(),
        Sort::Exact,
    )
}

fn sort_of_cell(scope: &Scope, name: Name, number: Option<Sort>) -> Option<Sort>
    ensures { result ≡ (if is_block (procedure_of scope.now.own.now) name && some_serves number sort.Exact
        then sort_of_name (procedure_of scope.now.own.now) name else None) }
{
    if is_block(scope.own, name) && some_serves(number, Sort::Exact) {
        sort_of_name(scope.own, name)
    } else {
        None
    }
}

fn sort_of_entry(scope: &Scope, list: u32, number: Option<Sort>) -> Option<Sort>
    ensures { result ≡ sort_if (nat_lt list scope.now.own.now.lists && some_serves number sort.Exact) sort.Int }
{
    sort_if(
        list < scope.own.lists && some_serves(number, Sort::Exact),
        Sort::Int,
    )
}

fn sort_exactly(op: Exact, s: Option<Sort>, t: Option<Sort>) -> Option<Sort>
    ensures { result ≡ sort_if (both_serve s t sort.Exact) (exact_sort op) }
{
    sort_if(both_serve(s, t, Sort::Exact), exact_sort(op))
}

fn sort_applied(
    scope: &Scope,
    block: u32,
    procedure: u32,
    sorts: &[(u32, Option<Sort>)],
) -> Option<Sort>
    ensures { result ≡ applied_sort (slice_get (scope_of scope.now).unit.procedures procedure)
        (slice_get scope.now.own.now.blocks block) sorts.now }
{
    match scope.unit.procedures.get(procedure as usize) {
        None => None,
        Some(procedure) => applied_sort(procedure, block_at(scope.own, block), sorts),
    }
}

/// The sort of what a tree gives, where all in it fits.
#[cycle(sort_of)]
pub fn sort_of(alloc: Global, scope: &Scope, tree: &Tree) -> Result<Option<Sort>, AllocError>
    ensures { IfOk result (λ s. s ≡ sort_of (scope_of scope.now) (tree_of tree.now)) }
{
    match tree {
        Tree::Literal(x) => Ok(sort_of_scalar(x)),
        Tree::Number(z) => Ok(sort_if(exact_fits(*z), Sort::Exact)),
        Tree::Constant(n) => Ok(sort_of_constant(scope.unit.constants.as_slice(), *n)),
        Tree::Fixed(k) => Ok(scalar_at(scope.own, *k)),
        Tree::Read(access) => Ok(sort_read(scope, access)),
        Tree::Cell(name, t) => {
            let s = sort_of(alloc, scope, t.get())?;
            Ok(sort_of_cell(scope, *name, s))
        }
        Tree::Entry(list, t) => {
            let s = sort_of(alloc, scope, t.get())?;
            Ok(sort_of_entry(scope, *list, s))
        }
        Tree::Turn(number) => Ok(sort_if(is_loop(scope, *number), Sort::Exact)),
        Tree::Place(access) => Ok(sort_of_place(scope, access)),
        Tree::Asked(question, name) => Ok(question_sort(scope.own, *question, *name)),
        Tree::Unary(op, t) => {
            let s = sort_of(alloc, scope, t.get())?;
            Ok(unary_sort(*op, s))
        }
        Tree::Binary(op, t, u) => {
            let s = sort_of(alloc, scope, t.get())?;
            let r = sort_of(alloc, scope, u.get())?;
            Ok(binary_sort(*op, s, r))
        }
        Tree::Exact(op, t, u) => {
            let s = sort_of(alloc, scope, t.get())?;
            let r = sort_of(alloc, scope, u.get())?;
            Ok(sort_exactly(*op, s, r))
        }
        Tree::Wrapped(t) => {
            let s = sort_of(alloc, scope, t.get())?;
            Ok(sort_if(some_serves(s, Sort::Exact), Sort::Int))
        }
        Tree::Elemental(which, operands) => {
            let sorts = sorts_of(alloc, scope, operands.as_slice())?;
            Ok(elemental_sort(*which, sorts.as_slice()))
        }
        Tree::Trim(t) => {
            let s = sort_of(alloc, scope, t.get())?;
            Ok(sort_if(some_serves(s, Sort::Text), Sort::Text))
        }
        Tree::Len(t) => {
            let s = sort_of(alloc, scope, t.get())?;
            Ok(sort_if(some_serves(s, Sort::Text), Sort::Exact))
        }
        Tree::Applied(block, _, procedure, operands) => {
            let sorts = sorts_of(alloc, scope, operands.as_slice())?;
            Ok(sort_applied(scope, *block, *procedure, sorts.as_slice()))
        }
    }
}

/// The sorts of arguments, each with its place.
#[cycle(sort_of)]
pub fn sorts_of(
    alloc: Global,
    scope: &Scope,
    operands: &[Operand],
) -> Result<Vec<(u32, Option<Sort>)>, AllocError>
    ensures { IfOk result (λ sorts. sorts.items ≡ sorts_of (scope_of scope.now) (trees_of operands.now)) }
{
    let mut sorts = Vec::new(alloc);
    for operand in operands {
        let sort = operand_sort(alloc, scope, operand)?;
        sorts.push(sort)?;
    }
    Ok(sorts)
}

#[cycle(sort_of)]
fn operand_sort(
    alloc: Global,
    scope: &Scope,
    operand: &Operand,
) -> Result<(u32, Option<Sort>), AllocError>
    ensures { IfOk result
        (λ s. (more : Trees) → sorts_of (scope_of scope.now) (operand_of operand.now more)
        ≡ s ∷ sorts_of (scope_of scope.now) more) }
{
    let sort = sort_of(alloc, scope, &operand.value)?;
    Ok((operand.place, sort))
}
