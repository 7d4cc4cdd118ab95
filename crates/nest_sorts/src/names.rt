//! What is declared of a name.
ghost use Rattle.std.specs.Prelude.{◌≡◌, slice_get};
ghost use Rattle.nest_tree.specs.Sound.{sort_of_name, has_rank, is_block_role, is_own_role, is_result_role, is_block};
ghost use Rattle.nest_tree.specs.Sound.{has_dimension, question_sort, declared_at};
ghost use Rattle.nest_tree.specs.View.{procedure_of};

use crate::sorts::{some_serves, sort_if, sort_of_type};
use nest_tree::{Declared, Name, Procedure, Question, Role, Sort};

/// The variable with a number.
fn declared_at(own: &Procedure, n: u32) -> Option<Declared>
    ensures { result ≡ declared_at (procedure_of own.now) n }
{
    own.variables.get(n as usize).copied()
}

/// The block of the lowering with a number.
pub fn block_at(own: &Procedure, n: u32) -> Option<Sort>
    ensures { result ≡ slice_get own.now.blocks n }
{
    own.blocks.get(n as usize).copied()
}

/// The scalar of the lowering with a number.
pub fn scalar_at(own: &Procedure, n: u32) -> Option<Sort>
    ensures { result ≡ slice_get own.now.scalars n }
{
    own.scalars.get(n as usize).copied()
}

/// The sort of the elements of an array, where there is such an array.
pub fn sort_of_name(own: &Procedure, name: Name) -> Option<Sort>
    ensures { result ≡ sort_of_name (procedure_of own.now) name }
{
    match name {
        Name::Own(n) => match declared_at(own, n) {
            None => None,
            Some(d) => Some(sort_of_type(d.of)),
        },
        Name::Temp(t) => block_at(own, t),
    }
}

pub fn has_rank(own: &Procedure, name: Name, rank: usize) -> bool
    ensures { result ≡ has_rank (procedure_of own.now) name rank }
{
    match name {
        Name::Own(n) => match declared_at(own, n) {
            None => false,
            Some(d) => usize::from(d.rank) == rank,
        },
        Name::Temp(_) => rank <= 7,
    }
}

pub fn is_block_role(role: Role) -> bool
    ensures { result ≡ is_block_role role }
{
    match role {
        Role::Value(_) => false,
        _ => true,
    }
}

pub fn is_own_role(role: Role) -> bool
    ensures { result ≡ is_own_role role }
{
    match role {
        Role::Own => true,
        _ => false,
    }
}

pub fn is_result_role(role: Role) -> bool
    ensures { result ≡ is_result_role role }
{
    match role {
        Role::Result(_) => true,
        _ => false,
    }
}

/// Whether the name is of something that stands in a block.
pub fn is_block(own: &Procedure, name: Name) -> bool
    ensures { result ≡ is_block (procedure_of own.now) name }
{
    match name {
        Name::Own(n) => match declared_at(own, n) {
            None => false,
            Some(d) => is_block_role(d.role),
        },
        Name::Temp(t) => block_at(own, t).is_some(),
    }
}

fn has_dimension(own: &Procedure, name: Name, dim: u8) -> bool
    ensures { result ≡ has_dimension (procedure_of own.now) name dim }
{
    match name {
        Name::Own(n) => match declared_at(own, n) {
            None => false,
            Some(d) => 1 <= dim && dim <= d.rank,
        },
        Name::Temp(t) => 1 <= dim && dim <= 7 && block_at(own, t).is_some(),
    }
}

/// The sort of what is asked about an array.
pub fn question_sort(own: &Procedure, question: Question, name: Name) -> Option<Sort>
    ensures { result ≡ question_sort (procedure_of own.now) question name }
{
    match question {
        Question::Lower(dim) | Question::Upper(dim) | Question::Extent(dim) => {
            sort_if(has_dimension(own, name, dim), Sort::Exact)
        }
        Question::Size => sort_if(sort_of_name(own, name).is_some(), Sort::Exact),
        Question::Length => sort_if(
            some_serves(sort_of_name(own, name), Sort::Text),
            Sort::Exact,
        ),
        Question::Allocated => sort_if(sort_of_name(own, name).is_some(), Sort::Log),
    }
}
