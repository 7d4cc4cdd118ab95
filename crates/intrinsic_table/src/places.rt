//! Where an argument stands among those of an intrinsic, and whether it is needed.
ghost use Rattle.std.specs.Prelude.{◌≡◌, ◌≢◌, ℕ, true, [], ◌∷◌, Some, IfSome, IfNone, IsTrue, ◌↔◌};
ghost use Rattle.intrinsic_table.specs.Interface.{keyword_at, needed_count, is_needed};
ghost use Rattle.intrinsic_table.specs.Standing.{Stands, StandsNumbered, StandsIn, begins_number, Writes};
ghost use Rattle.intrinsic_table.specs.Table.{row_of};

use crate::intrinsic::Intrinsic;

fn is(word: &str, keyword: &[u8]) -> bool
    ensures { IsTrue result ↔ (word.now ≡ keyword.now) }
{
    word.as_bytes() == keyword
}

#[tactic(auto, using(crate::proofs::Keywords::nowhere))]
fn in_one(keyword: &[u8], first: &str) -> Option<usize>
    ensures { Stands (first.now ∷ []) keyword.now result }
{
    if is(first, keyword) { Some(0) } else { None }
}

#[tactic(auto, using(crate::proofs::Keywords::nowhere))]
fn in_two(keyword: &[u8], first: &str, second: &str) -> Option<usize>
    ensures { Stands (first.now ∷ second.now ∷ []) keyword.now result }
{
    if is(first, keyword) {
        Some(0)
    } else if is(second, keyword) {
        Some(1)
    } else {
        None
    }
}

#[tactic(auto, using(crate::proofs::Keywords::nowhere))]
fn in_three(keyword: &[u8], first: &str, second: &str, third: &str) -> Option<usize>
    ensures { Stands (first.now ∷ second.now ∷ third.now ∷ []) keyword.now result }
{
    if is(first, keyword) {
        Some(0)
    } else if is(second, keyword) {
        Some(1)
    } else if is(third, keyword) {
        Some(2)
    } else {
        None
    }
}

#[tactic(auto, using(crate::proofs::Keywords::nowhere))]
fn in_four(keyword: &[u8], first: &str, second: &str, third: &str, fourth: &str) -> Option<usize>
    ensures { Stands (first.now ∷ second.now ∷ third.now ∷ fourth.now ∷ []) keyword.now result }
{
    if is(first, keyword) {
        Some(0)
    } else if is(second, keyword) {
        Some(1)
    } else if is(third, keyword) {
        Some(2)
    } else if is(fourth, keyword) {
        Some(3)
    } else {
        None
    }
}

/// The first byte is a digit from 1 to 9.
fn begins_number(bytes: &[u8]) -> bool
    ensures { result ≡ begins_number bytes.now }
{
    matches!(bytes.first(), Some(b'1'..=b'9'))
}

/// The number that a text writes which begins so.
fn parsed(text: &str) -> Option<u32>
    requires { begins_number text.now ≡ true }
    ensures { Writes text.now result }
{
    match text.parse::<u32>() {
        Ok(number) => Some(number),
        Err(_) => None,
    }
}

/// The number from 1 to 4294967295 that these bytes write, without leading zeros.
#[tactic(auto, using(crate::proofs::Numerals::not_begun, crate::proofs::Numerals::not_utf8))]
fn number(bytes: &[u8]) -> Option<u32>
    ensures { Writes bytes.now result }
{
    if !begins_number(bytes) {
        return None;
    }
    match str::from_utf8(bytes) {
        Ok(text) => parsed(text),
        Err(_) => None,
    }
}

/// The place of `a1`, `a2` and so on.
fn in_numbered(keyword: &[u8]) -> Option<usize>
    ensures { StandsNumbered keyword.now result }
{
    let (letter, digits) = keyword.split_first()?;
    if *letter != b'a' {
        return None;
    }
    let number = number(digits)?;
    Some(number as usize - 1)
}

fn place_in(which: Intrinsic, keyword: &[u8]) -> Option<usize>
    ensures { StandsIn (row_of which).arguments keyword.now result }
{
    match which {
        Intrinsic::Max | Intrinsic::Min => in_numbered(keyword),
        Intrinsic::Abs => in_one(keyword, "a"),
        Intrinsic::Mod | Intrinsic::Modulo => in_two(keyword, "a", "p"),
        Intrinsic::Sign => in_two(keyword, "a", "b"),
        Intrinsic::Iand | Intrinsic::Ior | Intrinsic::Ieor => in_two(keyword, "i", "j"),
        Intrinsic::Merge => in_three(keyword, "tsource", "fsource", "mask"),
        Intrinsic::Ichar => in_one(keyword, "c"),
        Intrinsic::Char => in_one(keyword, "i"),
        Intrinsic::Index => in_two(keyword, "string", "substring"),
        Intrinsic::LenTrim
        | Intrinsic::Adjustl
        | Intrinsic::Adjustr
        | Intrinsic::Trim
        | Intrinsic::Len => in_one(keyword, "string"),
        Intrinsic::Size | Intrinsic::Lbound | Intrinsic::Ubound => in_two(keyword, "array", "dim"),
        Intrinsic::Shape => in_one(keyword, "source"),
        Intrinsic::Allocated => in_one(keyword, "array"),
        Intrinsic::Sum | Intrinsic::Product | Intrinsic::Maxval | Intrinsic::Minval => {
            in_three(keyword, "array", "dim", "mask")
        }
        Intrinsic::All | Intrinsic::Any | Intrinsic::Count => in_two(keyword, "mask", "dim"),
        Intrinsic::Maxloc | Intrinsic::Minloc => in_two(keyword, "array", "mask"),
        Intrinsic::DotProduct => in_two(keyword, "vector_a", "vector_b"),
        Intrinsic::Matmul => in_two(keyword, "matrix_a", "matrix_b"),
        Intrinsic::Transpose => in_one(keyword, "matrix"),
        Intrinsic::Cshift => in_three(keyword, "array", "shift", "dim"),
        Intrinsic::Eoshift => in_four(keyword, "array", "shift", "boundary", "dim"),
        Intrinsic::Spread => in_three(keyword, "source", "dim", "ncopies"),
        Intrinsic::Pack => in_three(keyword, "array", "mask", "vector"),
        Intrinsic::Unpack => in_three(keyword, "vector", "mask", "field"),
        Intrinsic::Reshape => in_four(keyword, "source", "shape", "pad", "order"),
    }
}

/// The place of the argument with this keyword, which is in lower case; the first argument has place 0. `None` exactly where the
/// intrinsic has no argument of this keyword.
pub fn argument_place(which: Intrinsic, keyword: &[u8]) -> Option<usize>
    ensures some { IfSome result (λ place. keyword_at which place ≡ Some keyword.now) }
    ensures none { IfNone result ((place : ℕ) → keyword_at which place ≢ Some keyword.now) }
{
    place_in(which, keyword)
}

/// How many of the first arguments must be given.
fn needed(which: Intrinsic) -> usize
    ensures { result ≡ needed_count which }
{
    match which {
        Intrinsic::Abs
        | Intrinsic::Ichar
        | Intrinsic::Char
        | Intrinsic::LenTrim
        | Intrinsic::Adjustl
        | Intrinsic::Adjustr
        | Intrinsic::Trim
        | Intrinsic::Size
        | Intrinsic::Shape
        | Intrinsic::Lbound
        | Intrinsic::Ubound
        | Intrinsic::Allocated
        | Intrinsic::Len
        | Intrinsic::Sum
        | Intrinsic::Product
        | Intrinsic::Maxval
        | Intrinsic::Minval
        | Intrinsic::All
        | Intrinsic::Any
        | Intrinsic::Count
        | Intrinsic::Maxloc
        | Intrinsic::Minloc
        | Intrinsic::Transpose => 1,
        Intrinsic::Merge | Intrinsic::Spread | Intrinsic::Unpack => 3,
        _ => 2,
    }
}

/// The argument at this place may not be absent. False where the intrinsic has none there.
pub fn is_needed(which: Intrinsic, place: usize) -> bool
    ensures { result ≡ is_needed which place }
{
    place < needed(which)
}
