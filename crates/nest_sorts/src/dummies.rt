//! The dummies of a procedure, and whether arguments fit them.
ghost use Rattle.std.specs.Prelude.{◌≡◌, ℕ, Option, Some, false};
ghost use Rattle.std.specs.List.{list_all};
ghost use Rattle.nest_tree.specs.Sound.{is_at, dummy_at, count_dummies, takes_value, takes_result, values_fit, applied_sort};
ghost use Rattle.nest_tree.specs.Sound.{of_declared, sort_of_type};
ghost use Rattle.nest_tree.specs.View.{procedure_of};
ghost use Rattle.nest_tree.specs.declared.unit.Declared.{Declared};
ghost use Rattle.nest_tree.specs.declared.unit.Sort.{Sort};
ghost use Rattle.nest_tree.specs.declared.unit.Sort.TheVariants.{Exact};

use crate::names::{is_block_role, is_own_role, is_result_role};
use crate::sorts::{is_sort, some_serves, sort_if, sort_of_type};
use nest_tree::{Declared, Procedure, Role, Sort};

fn is_at(place: usize, role: Role) -> bool
    ensures { result ≡ is_at place role }
{
    match role {
        Role::Own => false,
        Role::Value(k) => k as usize == place,
        Role::Whole(k, _) => k as usize == place,
        Role::Result(k) => k as usize == place,
    }
}

/// The dummy with a place.
fn dummy_at(place: usize, variables: &[Declared]) -> Option<Declared>
    ensures { result ≡ dummy_at place variables.now }
{
    for declared in variables {
        if is_at(place, declared.role) {
            return Some(*declared);
        }
    }
    None
}

fn count_dummies(variables: &[Declared]) -> usize
    ensures { result ≡ count_dummies variables.now }
{
    let mut count = 0;
    for declared in variables {
        if !is_own_role(declared.role) {
            count += 1;
        }
    }
    count
}

fn takes_value(sort: Option<Sort>, declared: &Declared) -> bool
    ensures { result ≡ takes_value sort declared.now }
{
    !is_block_role(declared.role) && some_serves(sort, sort_of_type(declared.of))
}

fn takes_result(sort: Option<Sort>, declared: &Declared) -> bool
    ensures { result ≡ takes_result sort declared.now }
{
    is_result_role(declared.role) && is_sort(sort, sort_of_type(declared.of))
}

/// Whether there is a dummy with the place of the argument, which takes it.
fn is_taken(place: u32, sort: Option<Sort>, variables: &[Declared]) -> bool
    ensures { result ≡ of_declared false (takes_value sort) (dummy_at place variables.now) }
{
    match dummy_at(place as usize, variables) {
        None => false,
        Some(declared) => takes_value(sort, &declared),
    }
}

fn all_are_taken(sorts: &[(u32, Option<Sort>)], variables: &[Declared]) -> bool
    ensures { result
        ≡ list_all (λ (s : ℕ × Option Sort). of_declared false (takes_value s.1) (dummy_at s.0 variables.now)) sorts.now }
{
    for sort in sorts {
        if !is_taken(sort.0, sort.1, variables) {
            return false;
        }
    }
    true
}

fn values_fit(sorts: &[(u32, Option<Sort>)], variables: &[Declared]) -> bool
    ensures { result ≡ values_fit sorts.now variables.now }
{
    all_are_taken(sorts, variables) && count_dummies(variables) == sorts.len() + 1
}

fn result_is_taken(sort: Option<Sort>, declared: Option<Declared>) -> bool
    ensures { result ≡ of_declared false (takes_result sort) declared }
{
    match declared {
        None => false,
        Some(declared) => takes_result(sort, &declared),
    }
}

fn sort_of_dummy(declared: Option<Declared>) -> Sort
    ensures { result ≡ of_declared Exact (λ (d : Declared). sort_of_type d.of) declared }
{
    match declared {
        None => Sort::Exact,
        Some(declared) => sort_of_type(declared.of),
    }
}

/// The sort of what an elemental function gives, whose result takes a value of another sort.
pub fn applied_sort(
    procedure: &Procedure,
    taken: Option<Sort>,
    sorts: &[(u32, Option<Sort>)],
) -> Option<Sort>
    ensures { result ≡ applied_sort (Some (procedure_of procedure.now)) taken sorts.now }
{
    let variables = procedure.variables.as_slice();
    let last = dummy_at(sorts.len(), variables);
    sort_if(
        values_fit(sorts, variables) && result_is_taken(taken, last),
        sort_of_dummy(last),
    )
}
