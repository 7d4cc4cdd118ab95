//! The sorts that operators and elemental functions give.
ghost use Rattle.std.specs.Prelude.{◌≡◌, ℕ};
ghost use Rattle.std.specs.Prelude.{Option};
ghost use Rattle.std.specs.List.{list_all};
ghost use Rattle.nest_tree.specs.Sound.{some_serves, sort_if, unary_sort, binary_sort, exact_sort, sort_at, one_of, two_of};
ghost use Rattle.nest_tree.specs.Sound.{is_merge, either_sort, elemental_sort};
ghost use Rattle.nest_tree.specs.declared.unit.Sort.{Sort};
ghost use Rattle.nest_tree.specs.declared.unit.Sort.TheVariants.{Int, Log, Text};

use crate::sorts::{are_compared, both_serve, either_sort, some_serves, sort_if};
use f95_unit::{BinaryOp, Elemental, UnaryOp};
use nest_tree::{Exact, Sort};

pub fn unary_sort(op: UnaryOp, s: Option<Sort>) -> Option<Sort>
    ensures { result ≡ unary_sort op s }
{
    match op {
        UnaryOp::Not => sort_if(some_serves(s, Sort::Log), Sort::Log),
        UnaryOp::Plus | UnaryOp::Minus => sort_if(some_serves(s, Sort::Int), Sort::Int),
    }
}

pub fn binary_sort(op: BinaryOp, s: Option<Sort>, t: Option<Sort>) -> Option<Sort>
    ensures { result ≡ binary_sort op s t }
{
    match op {
        BinaryOp::Concat => sort_if(both_serve(s, t, Sort::Text), Sort::Text),
        BinaryOp::Equal
        | BinaryOp::NotEqual
        | BinaryOp::Less
        | BinaryOp::LessEqual
        | BinaryOp::Greater
        | BinaryOp::GreaterEqual => sort_if(are_compared(s, t), Sort::Log),
        BinaryOp::And | BinaryOp::Or | BinaryOp::Equivalent | BinaryOp::NotEquivalent => {
            sort_if(both_serve(s, t, Sort::Log), Sort::Log)
        }
        _ => sort_if(both_serve(s, t, Sort::Int), Sort::Int),
    }
}

pub fn exact_sort(op: Exact) -> Sort
    ensures { result ≡ exact_sort op }
{
    match op {
        Exact::Below | Exact::AtMost | Exact::Same => Sort::Log,
        _ => Sort::Exact,
    }
}

/// The sort of the argument with a place.
pub fn sort_at(place: u32, sorts: &[(u32, Option<Sort>)]) -> Option<Sort>
    ensures { result ≡ sort_at place sorts.now }
{
    for sort in sorts {
        if sort.0 == place {
            return sort.1;
        }
    }
    None
}

fn one_of(sorts: &[(u32, Option<Sort>)], asked: Sort) -> bool
    ensures { result ≡ one_of sorts.now asked }
{
    sorts.len() == 1 && some_serves(sort_at(0, sorts), asked)
}

fn two_of(sorts: &[(u32, Option<Sort>)], asked: Sort) -> bool
    ensures { result ≡ two_of sorts.now asked }
{
    sorts.len() == 2 && both_serve(sort_at(0, sorts), sort_at(1, sorts), asked)
}

fn is_merge(sorts: &[(u32, Option<Sort>)], asked: Sort) -> bool
    ensures { result ≡ is_merge sorts.now asked }
{
    sorts.len() == 3
        && both_serve(sort_at(0, sorts), sort_at(1, sorts), asked)
        && some_serves(sort_at(2, sorts), Sort::Log)
}

fn merged_sort(sorts: &[(u32, Option<Sort>)]) -> Option<Sort>
    ensures { result ≡ either_sort (sort_if (is_merge sorts.now Int) Int)
        (either_sort (sort_if (is_merge sorts.now Log) Log) (sort_if (is_merge sorts.now Text) Text)) }
{
    either_sort(
        sort_if(is_merge(sorts, Sort::Int), Sort::Int),
        either_sort(
            sort_if(is_merge(sorts, Sort::Log), Sort::Log),
            sort_if(is_merge(sorts, Sort::Text), Sort::Text),
        ),
    )
}

fn all_are_integers(sorts: &[(u32, Option<Sort>)]) -> bool
    ensures { result ≡ list_all (λ (s : ℕ × Option Sort). some_serves s.1 Int) sorts.now }
{
    for sort in sorts {
        if !some_serves(sort.1, Sort::Int) {
            return false;
        }
    }
    true
}

/// The sort of an elemental function of arguments of these sorts.
pub fn elemental_sort(which: Elemental, sorts: &[(u32, Option<Sort>)]) -> Option<Sort>
    ensures { result ≡ elemental_sort which sorts.now }
{
    match which {
        Elemental::Abs => sort_if(one_of(sorts, Sort::Int), Sort::Int),
        Elemental::Max | Elemental::Min => {
            sort_if(all_are_integers(sorts) && 1 <= sorts.len(), Sort::Int)
        }
        Elemental::Merge => merged_sort(sorts),
        Elemental::Ichar | Elemental::LenTrim => sort_if(one_of(sorts, Sort::Text), Sort::Int),
        Elemental::Char => sort_if(one_of(sorts, Sort::Int), Sort::Text),
        Elemental::Index => sort_if(two_of(sorts, Sort::Text), Sort::Int),
        Elemental::Adjustl | Elemental::Adjustr => {
            sort_if(one_of(sorts, Sort::Text), Sort::Text)
        }
        _ => sort_if(two_of(sorts, Sort::Int), Sort::Int),
    }
}
