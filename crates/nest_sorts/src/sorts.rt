//! Sorts, and which of them may stand for another.
ghost use Rattle.std.specs.Prelude.{◌≡◌, slice_get};
ghost use Rattle.nest_tree.specs.Sound.{same_sort, serves, some_serves, is_sort, sort_if, fits_64_bits, fits_32_bits};
ghost use Rattle.nest_tree.specs.Sound.{sort_of_scalar, sort_of_some, sort_of_type, both_serve, are_compared, either_sort};

use a95_base::Scalar;
use f95_unit::DeclaredType;
use nest_tree::Sort;

fn same_sort(s: Sort, t: Sort) -> bool
    ensures { result ≡ same_sort s t }
{
    match (s, t) {
        (Sort::Exact, Sort::Exact) => true,
        (Sort::Int, Sort::Int) => true,
        (Sort::Log, Sort::Log) => true,
        (Sort::Text, Sort::Text) => true,
        _ => false,
    }
}

/// Whether a value of the first sort may stand where one of the second is asked for.
fn serves(s: Sort, t: Sort) -> bool
    ensures { result ≡ serves s t }
{
    match (s, t) {
        (Sort::Int, Sort::Exact) => true,
        _ => same_sort(s, t),
    }
}

/// Whether there is a value, and it may stand there.
pub fn some_serves(s: Option<Sort>, t: Sort) -> bool
    ensures { result ≡ some_serves s t }
{
    match s {
        None => false,
        Some(s) => serves(s, t),
    }
}

pub fn is_sort(s: Option<Sort>, t: Sort) -> bool
    ensures { result ≡ is_sort s t }
{
    match s {
        None => false,
        Some(s) => same_sort(s, t),
    }
}

pub fn sort_if(holds: bool, s: Sort) -> Option<Sort>
    ensures { result ≡ sort_if holds s }
{
    if holds { Some(s) } else { None }
}

pub fn both_serve(s: Option<Sort>, t: Option<Sort>, asked: Sort) -> bool
    ensures { result ≡ both_serve s t asked }
{
    some_serves(s, asked) && some_serves(t, asked)
}

pub fn are_compared(s: Option<Sort>, t: Option<Sort>) -> bool
    ensures { result ≡ are_compared s t }
{
    both_serve(s, t, Sort::Int) || both_serve(s, t, Sort::Text)
}

pub fn either_sort(s: Option<Sort>, t: Option<Sort>) -> Option<Sort>
    ensures { result ≡ either_sort s t }
{
    match s {
        None => t,
        Some(s) => Some(s),
    }
}

/// Every number of 64 bits is an exact integer.
pub fn exact_fits(z: i64) -> bool
    ensures { result ≡ fits_64_bits z }
{
    let _z = z;
    true
}

fn integer_fits(z: i32) -> bool
    ensures { result ≡ fits_32_bits z }
{
    let _z = z;
    true
}

pub fn sort_of_scalar(x: &Scalar) -> Option<Sort>
    ensures { result ≡ sort_of_scalar x.now }
{
    match x {
        Scalar::Int(z) => sort_if(integer_fits(*z), Sort::Int),
        Scalar::Log(_) => Some(Sort::Log),
        Scalar::Text(_) => Some(Sort::Text),
    }
}

/// The sort of the constant with a number.
pub fn sort_of_constant(constants: &[Scalar], n: u32) -> Option<Sort>
    ensures { result ≡ sort_of_some (slice_get constants.now n) }
{
    match constants.get(n as usize) {
        None => None,
        Some(x) => sort_of_scalar(x),
    }
}

pub fn sort_of_type(of: DeclaredType) -> Sort
    ensures { result ≡ sort_of_type of }
{
    match of {
        DeclaredType::Integer => Sort::Int,
        DeclaredType::Logical => Sort::Log,
        DeclaredType::Character(_) => Sort::Text,
    }
}
