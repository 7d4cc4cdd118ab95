//! Copies of what is known before a run.
ghost use Rattle.std.specs.Prelude.{◌≡◌, IfOk};

use a95_base::{Scalar, SharedBytes};
use constant_operators::{Argument, Valued, Worth};
use std::alloc::{AllocError, Global};

pub fn copy_scalar(alloc: Global, x: &Scalar) -> Result<Scalar, AllocError>
    ensures { IfOk result (λ y. y ≡ x.now) }
{
    match x {
        Scalar::Int(z) => Ok(Scalar::Int(*z)),
        Scalar::Log(b) => Ok(Scalar::Log(*b)),
        Scalar::Text(bytes) => Ok(Scalar::Text(bytes.copy(alloc)?)),
    }
}

fn copy_worth(alloc: Global, worth: &Worth) -> Result<Worth, AllocError>
    ensures { IfOk result (λ w. w ≡ worth.now) }
{
    match worth {
        Worth::Is(x) => Ok(Worth::Is(copy_scalar(alloc, x)?)),
        Worth::Spoilt => Ok(Worth::Spoilt),
        Worth::Unknown => Ok(Worth::Unknown),
    }
}

pub fn copy_valued(alloc: Global, valued: &Valued) -> Result<Valued, AllocError>
    ensures { IfOk result (λ v. v ≡ valued.now) }
{
    Ok(Valued {
        facts: valued.facts,
        worth: copy_worth(alloc, &valued.worth)?,
    })
}

fn copy_maybe_valued(alloc: Global, valued: &Option<Valued>) -> Result<Option<Valued>, AllocError>
    ensures { IfOk result (λ v. v ≡ valued.now) }
{
    match valued {
        None => Ok(None),
        Some(valued) => Ok(Some(copy_valued(alloc, valued)?)),
    }
}

fn share_word(word: &Option<SharedBytes>) -> Result<Option<SharedBytes>, AllocError>
    ensures { IfOk result (λ w. w ≡ word.now) }
{
    match word {
        None => Ok(None),
        Some(word) => Ok(Some(word.share()?)),
    }
}

pub fn copy_argument(alloc: Global, argument: &Argument) -> Result<Argument, AllocError>
    ensures { IfOk result (λ a. a ≡ argument.now) }
{
    let keyword = share_word(&argument.keyword)?;
    let bare = share_word(&argument.bare)?;
    let valued = copy_maybe_valued(alloc, &argument.valued)?;
    Ok(Argument {
        keyword,
        bare,
        valued,
    })
}
