//! What an expression is before a run.
ghost use Rattle.std.specs.Prelude.{◌≡◌, ◌∷◌, ◌&&◌, map, IfOk, option_map};
ghost use Rattle.names_types.specs.Constants.{valued, valued_reference, arguments, bare_reference, bare_name, bare_at};
ghost use Rattle.names_types.specs.Constants.{is_array_name, is_array_sense, is_filled, inquiry_call, call_of, named_by, called_by};
ghost use Rattle.names_types.specs.declared.sense.Sense.TheVariants.{NamesIntrinsic};
ghost use Rattle.names_types.specs.Plain.{Items};
ghost use Rattle.names_types.specs.View.{scalar_of, expr_of, reference_of, item_of, joined_items};

use crate::arguments::{arranged, is_filled};
use crate::senses::Senses;
use a95_base::{Bytes, Scalar, SharedBytes};
use constant_operators::{Argument, Valued, Worth, an_integer, binary, literal, signed};
use elemental_values::elemental_call;
use f95_tree::{Expression, Item, Literal, Reference};
use intrinsic_table::Intrinsic;
use names_types::Sense;
use std::alloc::{AllocError, Global};

fn scalar_of(alloc: Global, l: &Literal) -> Result<Scalar, AllocError>
    ensures { IfOk result (λ x. x ≡ scalar_of l.now) }
{
    match l {
        Literal::Number(z) => Ok(Scalar::Int(*z)),
        Literal::Text(bytes) => Ok(Scalar::Text(Bytes::from_slice(alloc, bytes.as_slice())?)),
        Literal::Logical(b) => Ok(Scalar::Log(*b)),
    }
}

fn bare_reference(r: &Reference) -> Result<Option<SharedBytes>, AllocError>
    ensures { IfOk result (λ n. n ≡ bare_reference (reference_of r.now)) }
{
    match r {
        Reference::Whole(name) => Ok(Some(name.share()?)),
        Reference::Items(..) => Ok(None),
        Reference::Substring(..) => Ok(None),
    }
}

/// The name of an argument that is a name alone.
fn bare_name(e: &Expression) -> Result<Option<SharedBytes>, AllocError>
    ensures { IfOk result (λ n. n ≡ bare_name (expr_of e.now)) }
{
    match e {
        Expression::Literal(_) => Ok(None),
        Expression::Reference(r) => bare_reference(r),
        Expression::Bracketed(_) => Ok(None),
        Expression::Constructor(_) => Ok(None),
        Expression::Signed(..) => Ok(None),
        Expression::Binary(..) => Ok(None),
    }
}

fn bare_first(placed: &[(usize, Argument)]) -> Option<&SharedBytes>
    ensures { option_map (λ n. n.now) result ≡ bare_at 0 placed.now }
{
    for argument in placed {
        if argument.0 == 0 {
            return argument.1.bare.as_ref();
        }
    }
    None
}

fn is_array(sense: &Sense) -> bool
    ensures { result ≡ is_array_sense sense.now }
{
    match sense {
        Sense::Names(_) => false,
        Sense::NamesArray => true,
        Sense::NamesIntrinsic(_) => false,
        Sense::NamesOther => false,
    }
}

fn names_array<S: Senses>(
    alloc: Global,
    senses: &S,
    placed: &[(usize, Argument)],
) -> Result<bool, AllocError>
    ensures { IfOk result (λ b. b ≡ is_array_name (S.meant senses.now) (bare_at 0 placed.now)) }
{
    let Some(name) = bare_first(placed) else {
        return Ok(false);
    };
    let sense = senses.sense(alloc, name)?;
    Ok(is_array(&sense))
}

fn asks_bound<S: Senses>(
    alloc: Global,
    senses: &S,
    placed: &[(usize, Argument)],
) -> Result<bool, AllocError>
    ensures { IfOk result (λ b. b ≡ (is_array_name (S.meant senses.now) (bare_at 0 placed.now) && is_filled 1 placed.now)) }
{
    let named = names_array(alloc, senses, placed)?;
    Ok(named && is_filled(1, placed))
}

/// SIZE, LBOUND and UBOUND of an array whose bounds may be asked for, with DIM.
fn inquiry_call<S: Senses>(
    alloc: Global,
    senses: &S,
    placed: &[(usize, Argument)],
) -> Result<Option<Valued>, AllocError>
    ensures { IfOk result (λ v. v ≡ inquiry_call (S.meant senses.now) placed.now) }
{
    let asks = asks_bound(alloc, senses, placed)?;
    if asks {
        Ok(Some(Valued {
            facts: an_integer(),
            worth: Worth::Unknown,
        }))
    } else {
        Ok(None)
    }
}

fn call_of<S: Senses>(
    alloc: Global,
    senses: &S,
    which: Intrinsic,
    placed: &[(usize, Argument)],
) -> Result<Option<Valued>, AllocError>
    ensures { IfOk result (λ v. v ≡ call_of (S.meant senses.now) which placed.now) }
{
    match which {
        Intrinsic::Size | Intrinsic::Lbound | Intrinsic::Ubound => {
            inquiry_call(alloc, senses, placed)
        }
        _ => elemental_call(alloc, which, placed),
    }
}

fn intrinsic_call<S: Senses>(
    alloc: Global,
    senses: &S,
    which: Intrinsic,
    arguments: &[Argument],
) -> Result<Option<Valued>, AllocError>
    ensures { IfOk result (λ v. v ≡ called_by (S.meant senses.now) (NamesIntrinsic which) arguments.now) }
{
    let Some(placed) = arranged(alloc, which, arguments)? else {
        return Ok(None);
    };
    call_of(alloc, senses, which, placed.as_slice())
}

fn called_by<S: Senses>(
    alloc: Global,
    senses: &S,
    sense: &Sense,
    arguments: &[Argument],
) -> Result<Option<Valued>, AllocError>
    ensures { IfOk result (λ v. v ≡ called_by (S.meant senses.now) sense.now arguments.now) }
{
    match sense {
        Sense::Names(_) => Ok(None),
        Sense::NamesArray => Ok(None),
        Sense::NamesIntrinsic(which) => intrinsic_call(alloc, senses, *which, arguments),
        Sense::NamesOther => Ok(None),
    }
}

fn named_by(sense: Sense) -> Option<Valued>
    ensures { result ≡ named_by sense }
{
    match sense {
        Sense::Names(valued) => Some(valued),
        Sense::NamesArray => None,
        Sense::NamesIntrinsic(_) => None,
        Sense::NamesOther => None,
    }
}

/// What an expression is, where it is built of literals, names that may stand there, operators, elemental functions, and bounds
/// that
/// may be asked for, and the kinds fit.
#[cycle(valued)]
pub fn valued<S: Senses>(
    alloc: Global,
    senses: &S,
    e: &Expression,
) -> Result<Option<Valued>, AllocError>
    ensures { IfOk result (λ v. v ≡ valued (S.meant senses.now) (expr_of e.now)) }
{
    match e {
        Expression::Literal(l) => {
            let x = scalar_of(alloc, l)?;
            Ok(Some(literal(x)))
        }
        Expression::Reference(r) => valued_reference(alloc, senses, r),
        Expression::Bracketed(e) => valued(alloc, senses, e.get()),
        Expression::Constructor(_) => Ok(None),
        Expression::Signed(sign, e) => {
            let v = valued(alloc, senses, e.get())?;
            Ok(signed(*sign, v))
        }
        Expression::Binary(operator, e, f) => {
            let u = valued(alloc, senses, e.get())?;
            let v = valued(alloc, senses, f.get())?;
            binary(alloc, *operator, &u, &v)
        }
    }
}

#[cycle(valued)]
fn valued_reference<S: Senses>(
    alloc: Global,
    senses: &S,
    r: &Reference,
) -> Result<Option<Valued>, AllocError>
    ensures { IfOk result (λ v. v ≡ valued_reference (S.meant senses.now) (reference_of r.now)) }
{
    match r {
        Reference::Whole(name) => {
            let sense = senses.sense(alloc, name)?;
            Ok(named_by(sense))
        }
        Reference::Items(name, items) => {
            let sense = senses.sense(alloc, name)?;
            let arguments = arguments(alloc, senses, items.get().as_slice())?;
            called_by(alloc, senses, &sense, arguments.as_slice())
        }
        Reference::Substring(..) => Ok(None),
    }
}

#[cycle(valued)]
#[tactic(auto, using(crate::proofs::ArgumentLists::argument_next))]
fn arguments<S: Senses>(
    alloc: Global,
    senses: &S,
    items: &[Item],
) -> Result<Vec<Argument>, AllocError>
    ensures { IfOk result (λ made. made.items ≡ arguments (S.meant senses.now) (joined_items (map item_of items.now))) }
{
    let mut made = Vec::new(alloc);
    for item in items {
        made.push(argument(alloc, senses, item)?)?;
    }
    Ok(made)
}

#[cycle(valued)]
fn argument<S: Senses>(alloc: Global, senses: &S, item: &Item) -> Result<Argument, AllocError>
    ensures { IfOk result
        (λ a. (more : Items) → arguments (S.meant senses.now) (item_of item.now more) ≡ a ∷ arguments (S.meant senses.now) more) }
{
    match item {
        Item::Plain(e) => {
            let bare = bare_name(e)?;
            let valued = valued(alloc, senses, e)?;
            Ok(Argument {
                keyword: None,
                bare,
                valued,
            })
        }
        Item::Keyword(word, e) => {
            let bare = bare_name(e)?;
            let valued = valued(alloc, senses, e)?;
            Ok(Argument {
                keyword: Some(word.share()?),
                bare,
                valued,
            })
        }
        Item::Triplet(..) => Ok(Argument {
            keyword: None,
            bare: None,
            valued: None,
        }),
    }
}
