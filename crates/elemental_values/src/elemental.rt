//! The elemental functions on scalars that are known.
ghost use Rattle.std.specs.Prelude.{◌≡◌, ◌∷◌, [], ◌&&◌, not, pos, neg_ℤ, unsigned_abs, int_le, Some, IfOk, option_map};
ghost use Rattle.std.specs.Prelude.{if◌then◌else◌};
ghost use Rattle.std.specs.List.{filter_map, list_any, list_all};
ghost use Rattle.std.specs.Option.{is_some};
ghost use Rattle.a95_base.specs.Integer.{greater_of, lesser_of};
ghost use Rattle.a95_base.specs.Text.{char_of, adjust_left, adjust_right};
ghost use Rattle.a95_base.specs.declared.scalar.Kind.TheVariants as kind;
ghost use Rattle.a95_base.specs.declared.scalar.Scalar.TheVariants as scalar;
ghost use Rattle.intrinsic_table.specs.declared.intrinsic.Intrinsic.TheVariants as intrinsic;
ghost use Rattle.constant_operators.specs.declared.value.Worth.TheVariants.{Is};
ghost use Rattle.constant_operators.specs.Operators.{is_kind, within, only_if};
ghost use Rattle.names_types.specs.Constants.{Seen, all_seen, all_of_kind, seen_facts, is_length, merged_facts, elemental_facts};
ghost use Rattle.names_types.specs.Constants.{given_at, given_in, integer_at, text_at, truth_of, best, elemental_value};
ghost use Rattle.names_types.specs.Constants.{elemental_worth, elemental_call, is_spoilt, scalar_in, text_or_spoilt};

use crate::copies::{copy_scalar, copy_valued};
use a95_base::{Kind, Scalar, modulo, remainder};
use constant_operators::{
    Argument, Facts, Valued, Worth, a_text, an_integer, integer, integer_of, integer_or_spoilt,
    is_kind, text_of, text_or_spoilt, truth_of,
};
use intrinsic_table::Intrinsic;
use std::alloc::{AllocError, Global};
use text_functions::{
    adjust_left, adjust_right, char_of, code_of, first_place, without_end_blanks,
};

/// What the arguments are, where each may stand where it does.
#[tactic(auto, using(crate::proofs::SeenLists::seen_more, crate::proofs::SeenLists::seen_none))]
fn all_seen(
    alloc: Global,
    placed: &[(usize, Argument)],
) -> Result<Option<Vec<(usize, Valued)>>, AllocError>
    ensures { IfOk result (λ vs. option_map (λ v. v.items) vs ≡ all_seen placed.now) }
{
    let mut made = Vec::new(alloc);
    for argument in placed {
        let Some(valued) = &argument.1.valued else {
            return Ok(None);
        };
        made.push((argument.0, copy_valued(alloc, valued)?))?;
    }
    Ok(Some(made))
}

fn all_of_kind(kind: Kind, seen: &[(usize, Valued)]) -> bool
    ensures { result ≡ all_of_kind kind seen.now }
{
    for argument in seen {
        if !is_kind(kind, argument.1.facts.kind) {
            return false;
        }
    }
    true
}

fn seen_facts(place: usize, seen: &[(usize, Valued)]) -> Facts
    ensures { result ≡ seen_facts place seen.now }
{
    for argument in seen {
        if argument.0 == place {
            return argument.1.facts;
        }
    }
    an_integer()
}

fn only_if(holds: bool, facts: Facts) -> Option<Facts>
    ensures { result ≡ only_if holds facts }
{
    if holds { Some(facts) } else { None }
}

fn are_merged(t: Kind, f: Kind, mask: Kind) -> bool
    ensures { result ≡ (is_kind t f && (not (is_kind kind.Text t) && is_kind kind.Log mask)) }
{
    is_kind(t, f) && !is_kind(Kind::Text, t) && is_kind(Kind::Log, mask)
}

/// MERGE chooses between two INTEGERs or two LOGICALs.
fn merged_facts(t: Facts, f: Facts, mask: Facts) -> Option<Facts>
    ensures { result ≡ merged_facts t f mask }
{
    only_if(
        are_merged(t.kind, f.kind, mask.kind),
        Facts {
            kind: t.kind,
            length: None,
        },
    )
}

fn is_length(n: usize, length: Option<usize>) -> bool
    ensures { result ≡ is_length n length }
{
    match length {
        None => false,
        Some(m) => n == m,
    }
}

fn of_integers(seen: &[(usize, Valued)], facts: Facts) -> Option<Facts>
    ensures { result ≡ only_if (all_of_kind kind.Int seen.now) facts }
{
    only_if(all_of_kind(Kind::Int, seen), facts)
}

fn of_texts(seen: &[(usize, Valued)], facts: Facts) -> Option<Facts>
    ensures { result ≡ only_if (all_of_kind kind.Text seen.now) facts }
{
    only_if(all_of_kind(Kind::Text, seen), facts)
}

fn are_one_byte(seen: &[(usize, Valued)]) -> bool
    ensures { result ≡ (all_of_kind kind.Text seen.now && is_length 1 (seen_facts 0 seen.now).length) }
{
    all_of_kind(Kind::Text, seen) && is_length(1, seen_facts(0, seen).length)
}

/// ICHAR asks for a text whose length is known to be 1.
fn of_one_byte(seen: &[(usize, Valued)]) -> Option<Facts>
    ensures { result ≡ elemental_facts intrinsic.Ichar seen.now }
{
    only_if(are_one_byte(seen), an_integer())
}

fn of_merge(seen: &[(usize, Valued)]) -> Option<Facts>
    ensures { result ≡ elemental_facts intrinsic.Merge seen.now }
{
    merged_facts(
        seen_facts(0, seen),
        seen_facts(1, seen),
        seen_facts(2, seen),
    )
}

/// The elemental functions on scalars, where the kinds fit.
pub fn elemental_facts(which: Intrinsic, seen: &[(usize, Valued)]) -> Option<Facts>
    ensures { result ≡ elemental_facts which seen.now }
{
    match which {
        Intrinsic::Abs
        | Intrinsic::Mod
        | Intrinsic::Modulo
        | Intrinsic::Sign
        | Intrinsic::Max
        | Intrinsic::Min
        | Intrinsic::Iand
        | Intrinsic::Ior
        | Intrinsic::Ieor => of_integers(seen, an_integer()),
        Intrinsic::Merge => of_merge(seen),
        Intrinsic::Ichar => of_one_byte(seen),
        Intrinsic::Char => of_integers(seen, a_text(Some(1))),
        Intrinsic::LenTrim | Intrinsic::Index => of_texts(seen, an_integer()),
        Intrinsic::Adjustl | Intrinsic::Adjustr => of_texts(seen, a_text(None)),
        _ => None,
    }
}

fn integer_at(place: usize, seen: &[(usize, Valued)]) -> i32
    ensures { result ≡ integer_at place (filter_map given_in seen.now) }
{
    for argument in seen {
        if let Worth::Is(x) = &argument.1.worth {
            if argument.0 == place {
                return integer_of(x);
            }
        }
    }
    0
}

fn truth_at(place: usize, seen: &[(usize, Valued)]) -> bool
    ensures { result ≡ truth_of (given_at place (filter_map given_in seen.now)) }
{
    for argument in seen {
        if let Worth::Is(x) = &argument.1.worth {
            if argument.0 == place {
                return truth_of(x);
            }
        }
    }
    false
}

fn text_at(place: usize, seen: &[(usize, Valued)]) -> &[u8]
    ensures { result.now ≡ text_at place (filter_map given_in seen.now) }
{
    for argument in seen {
        if let Worth::Is(x) = &argument.1.worth {
            if argument.0 == place {
                return text_of(x);
            }
        }
    }
    &[]
}

fn given_at(alloc: Global, place: usize, seen: &[(usize, Valued)]) -> Result<Scalar, AllocError>
    ensures { IfOk result (λ x. x ≡ given_at place (filter_map given_in seen.now)) }
{
    for argument in seen {
        if let Worth::Is(x) = &argument.1.worth {
            if argument.0 == place {
                return copy_scalar(alloc, x);
            }
        }
    }
    Ok(Scalar::Int(0))
}

fn greatest(seen: &[(usize, Valued)]) -> i32
    ensures { result ≡ best greater_of (filter_map given_in seen.now) }
{
    let mut greatest = integer_at(0, seen);
    for argument in seen {
        if let Worth::Is(x) = &argument.1.worth {
            greatest = greatest.max(integer_of(x));
        }
    }
    greatest
}

fn least(seen: &[(usize, Valued)]) -> i32
    ensures { result ≡ best lesser_of (filter_map given_in seen.now) }
{
    let mut least = integer_at(0, seen);
    for argument in seen {
        if let Worth::Is(x) = &argument.1.worth {
            least = least.min(integer_of(x));
        }
    }
    least
}

fn absolute(x: i32) -> Worth
    ensures { result ≡ within (pos (unsigned_abs x)) }
{
    integer_or_spoilt(x.checked_abs())
}

/// The lesser of a number and its negative.
fn negative(x: i32) -> i32
    ensures { result ≡ neg_ℤ (pos (unsigned_abs x)) }
{
    if 0 < x { -x } else { x }
}

#[tactic(auto, using(crate::proofs::Signs::negative_within))]
fn with_sign(x: i32, y: i32) -> Worth
    ensures { result ≡ within (if int_le (pos 0) y then pos (unsigned_abs x) else neg_ℤ (pos (unsigned_abs x))) }
{
    if 0 <= y {
        absolute(x)
    } else {
        integer(negative(x))
    }
}

fn merged(alloc: Global, seen: &[(usize, Valued)]) -> Result<Worth, AllocError>
    ensures { IfOk result (λ w. w ≡ elemental_value intrinsic.Merge (filter_map given_in seen.now)) }
{
    if truth_at(2, seen) {
        Ok(Worth::Is(given_at(alloc, 0, seen)?))
    } else {
        Ok(Worth::Is(given_at(alloc, 1, seen)?))
    }
}

fn character(alloc: Global, code: i32) -> Result<Worth, AllocError>
    ensures { IfOk result (λ w. w ≡ text_or_spoilt (char_of code)) }
{
    let text = char_of(alloc, i64::from(code))?;
    Ok(text_or_spoilt(text))
}

/// A number of bytes as an INTEGER. One that no INTEGER reaches ends as want of memory does.
fn count(n: usize) -> Result<Worth, AllocError>
    ensures { IfOk result (λ w. w ≡ Is (scalar.Int (pos n))) }
{
    match i32::try_from(n) {
        Ok(n) => Ok(integer(n)),
        Err(_) => Err(AllocError),
    }
}

fn adjusted_left(alloc: Global, text: &[u8]) -> Result<Worth, AllocError>
    ensures { IfOk result (λ w. w ≡ Is (scalar.Text (adjust_left text.now))) }
{
    Ok(Worth::Is(Scalar::Text(adjust_left(alloc, text)?)))
}

fn adjusted_right(alloc: Global, text: &[u8]) -> Result<Worth, AllocError>
    ensures { IfOk result (λ w. w ≡ Is (scalar.Text (adjust_right text.now))) }
{
    Ok(Worth::Is(Scalar::Text(adjust_right(alloc, text)?)))
}

fn elemental_value(
    alloc: Global,
    which: Intrinsic,
    seen: &[(usize, Valued)],
) -> Result<Worth, AllocError>
    ensures { IfOk result (λ w. w ≡ elemental_value which (filter_map given_in seen.now)) }
{
    match which {
        Intrinsic::Abs => Ok(absolute(integer_at(0, seen))),
        Intrinsic::Mod => Ok(integer_or_spoilt(remainder(
            integer_at(0, seen),
            integer_at(1, seen),
        ))),
        Intrinsic::Modulo => Ok(integer_or_spoilt(modulo(
            integer_at(0, seen),
            integer_at(1, seen),
        ))),
        Intrinsic::Sign => Ok(with_sign(integer_at(0, seen), integer_at(1, seen))),
        Intrinsic::Max => Ok(integer(greatest(seen))),
        Intrinsic::Min => Ok(integer(least(seen))),
        Intrinsic::Iand => Ok(integer(integer_at(0, seen) & integer_at(1, seen))),
        Intrinsic::Ior => Ok(integer(integer_at(0, seen) | integer_at(1, seen))),
        Intrinsic::Ieor => Ok(integer(integer_at(0, seen) ^ integer_at(1, seen))),
        Intrinsic::Merge => merged(alloc, seen),
        Intrinsic::Ichar => Ok(integer_or_spoilt(code_of(text_at(0, seen)))),
        Intrinsic::Char => character(alloc, integer_at(0, seen)),
        Intrinsic::LenTrim => count(without_end_blanks(text_at(0, seen)).len()),
        Intrinsic::Index => count(first_place(text_at(0, seen), text_at(1, seen))),
        Intrinsic::Adjustl => adjusted_left(alloc, text_at(0, seen)),
        Intrinsic::Adjustr => adjusted_right(alloc, text_at(0, seen)),
        _ => Ok(Worth::Unknown),
    }
}

fn has_spoilt(seen: &[(usize, Valued)]) -> bool
    ensures { result ≡ list_any (λ (a : Seen). is_spoilt a.1.worth) seen.now }
{
    for argument in seen {
        if let Worth::Spoilt = argument.1.worth {
            return true;
        }
    }
    false
}

fn all_are_known(seen: &[(usize, Valued)]) -> bool
    ensures { result ≡ list_all (λ (a : Seen). is_some (scalar_in a.1.worth)) seen.now }
{
    for argument in seen {
        let Worth::Is(_) = argument.1.worth else {
            return false;
        };
    }
    true
}

/// All arguments are evaluated.
pub fn elemental_worth(
    alloc: Global,
    which: Intrinsic,
    seen: &[(usize, Valued)],
) -> Result<Worth, AllocError>
    ensures { IfOk result (λ w. w ≡ elemental_worth which seen.now) }
{
    if has_spoilt(seen) {
        return Ok(Worth::Spoilt);
    }
    if all_are_known(seen) {
        elemental_value(alloc, which, seen)
    } else {
        Ok(Worth::Unknown)
    }
}

/// An elemental function of these arguments.
pub fn elemental_call(
    alloc: Global,
    which: Intrinsic,
    placed: &[(usize, Argument)],
) -> Result<Option<Valued>, AllocError>
    ensures { IfOk result (λ v. v ≡ elemental_call which placed.now) }
{
    let Some(seen) = all_seen(alloc, placed)? else {
        return Ok(None);
    };
    let Some(facts) = elemental_facts(which, seen.as_slice()) else {
        return Ok(None);
    };
    let worth = elemental_worth(alloc, which, seen.as_slice())?;
    Ok(Some(Valued { facts, worth }))
}
