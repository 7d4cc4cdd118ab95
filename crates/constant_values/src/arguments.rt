//! The arguments of a reference to an intrinsic, and the place of each.
ghost use Rattle.std.specs.Prelude.{◌≡◌, not, ◌&&◌, ◌||◌, IfOk, option_map};
ghost use Rattle.std.specs.List.{list_all};
ghost use Rattle.std.specs.Option.{is_some};
ghost use Rattle.constant_operators.specs.declared.value.Argument.{Argument};
ghost use Rattle.intrinsic_table.specs.Interface.{keyword_at, is_needed};
ghost use Rattle.intrinsic_table.specs.TableLaws.{argument_count};
ghost use Rattle.names_types.specs.Keywords.{keyword_place};
ghost use Rattle.names_types.specs.Constants.{argument_place, placed_from, is_filled, have_own_places, keywords_last};
ghost use Rattle.names_types.specs.Constants.{needed_are_filled, arranged};

use a95_base::SharedBytes;
use constant_operators::Argument;
use elemental_values::copy_argument;
use intrinsic_table::{Intrinsic, is_needed};
use std::alloc::{AllocError, Global};

/// The place of the argument with this keyword, or none.
pub fn keyword_place(which: Intrinsic, keyword: &[u8]) -> Option<usize>
    ensures { result ≡ keyword_place which keyword.now }
{
    intrinsic_table::argument_place(which, keyword)
}

/// How many arguments an intrinsic has at most.
fn argument_count(which: Intrinsic) -> usize
    ensures { result ≡ argument_count which }
{
    match which {
        Intrinsic::Max | Intrinsic::Min => 4294967295,
        Intrinsic::Abs
        | Intrinsic::Ichar
        | Intrinsic::Char
        | Intrinsic::LenTrim
        | Intrinsic::Adjustl
        | Intrinsic::Adjustr
        | Intrinsic::Trim
        | Intrinsic::Shape
        | Intrinsic::Allocated
        | Intrinsic::Len
        | Intrinsic::Transpose => 1,
        Intrinsic::Merge
        | Intrinsic::Sum
        | Intrinsic::Product
        | Intrinsic::Maxval
        | Intrinsic::Minval
        | Intrinsic::Cshift
        | Intrinsic::Spread
        | Intrinsic::Pack
        | Intrinsic::Unpack => 3,
        Intrinsic::Eoshift | Intrinsic::Reshape => 4,
        _ => 2,
    }
}

#[tactic(auto, using(crate::proofs::Keywords::counted))]
fn has_place(which: Intrinsic, place: usize) -> bool
    ensures { result ≡ is_some (keyword_at which place) }
{
    place < argument_count(which)
}

/// The place of the argument that stands behind so many others.
fn argument_place(which: Intrinsic, next: usize, keyword: &Option<SharedBytes>) -> Option<usize>
    ensures { result ≡ argument_place which next keyword.now }
{
    match keyword {
        None => {
            if has_place(which, next) {
                Some(next)
            } else {
                None
            }
        }
        Some(word) => keyword_place(which, word.as_slice()),
    }
}

/// The arguments with their places, where each has one.
#[tactic(auto, using(crate::proofs::ArgumentLists::placed_more, crate::proofs::ArgumentLists::placed_none))]
fn placed(
    alloc: Global,
    which: Intrinsic,
    arguments: &[Argument],
) -> Result<Option<Vec<(usize, Argument)>>, AllocError>
    ensures { IfOk result (λ ps. option_map (λ p. p.items) ps ≡ placed_from which 0 arguments.now) }
{
    let mut made = Vec::new(alloc);
    let mut next = 0;
    for argument in arguments {
        let Some(place) = argument_place(which, next, &argument.keyword) else {
            return Ok(None);
        };
        made.push((place, copy_argument(alloc, argument)?))?;
        next += 1;
    }
    Ok(Some(made))
}

pub fn is_filled(place: usize, placed: &[(usize, Argument)]) -> bool
    ensures { result ≡ is_filled place placed.now }
{
    for argument in placed {
        if argument.0 == place {
            return true;
        }
    }
    false
}

fn have_own_places(placed: &[(usize, Argument)]) -> bool
    ensures { result ≡ have_own_places placed.now }
{
    let mut rest = placed;
    'looking: while let [argument, more @ ..] = rest {
        if is_filled(argument.0, more) {
            return false;
        }
        rest = more;
    }
    true
}

/// Whether each has a keyword.
fn all_have_keywords(arguments: &[Argument]) -> bool
    ensures { result ≡ list_all (λ (a : Argument). is_some a.keyword) arguments.now }
{
    for argument in arguments {
        if argument.keyword.is_none() {
            return false;
        }
    }
    true
}

/// Behind an argument with a keyword each has one.
fn keywords_last(arguments: &[Argument]) -> bool
    ensures { result ≡ keywords_last arguments.now }
{
    let mut rest = arguments;
    'looking: while let [argument, more @ ..] = rest {
        if argument.keyword.is_some() {
            return all_have_keywords(more);
        }
        rest = more;
    }
    true
}

fn is_given(which: Intrinsic, place: usize, placed: &[(usize, Argument)]) -> bool
    ensures { result ≡ (not (is_needed which place) || is_filled place placed.now) }
{
    !is_needed(which, place) || is_filled(place, placed)
}

fn needed_are_filled(which: Intrinsic, placed: &[(usize, Argument)]) -> bool
    ensures { result ≡ needed_are_filled which placed.now }
{
    is_given(which, 0, placed) && is_given(which, 1, placed) && is_given(which, 2, placed)
}

fn are_arranged(which: Intrinsic, arguments: &[Argument], placed: &[(usize, Argument)]) -> bool
    ensures { result ≡ (keywords_last arguments.now && (have_own_places placed.now && needed_are_filled which placed.now)) }
{
    keywords_last(arguments) && have_own_places(placed) && needed_are_filled(which, placed)
}

/// The arguments with their places, where they are as the intrinsic's table has them.
pub fn arranged(
    alloc: Global,
    which: Intrinsic,
    arguments: &[Argument],
) -> Result<Option<Vec<(usize, Argument)>>, AllocError>
    ensures { IfOk result (λ ps. option_map (λ p. p.items) ps ≡ arranged which arguments.now) }
{
    let Some(placed) = placed(alloc, which, arguments)? else {
        return Ok(None);
    };
    if are_arranged(which, arguments, placed.as_slice()) {
        Ok(Some(placed))
    } else {
        Ok(None)
    }
}
