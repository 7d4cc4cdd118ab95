//! All intrinsic functions.
ghost use Rattle.std.specs.Prelude.{◌≡◌, IfOk};
ghost use Rattle.a95_base.specs.declared.scalar.Kind.TheVariants as kind;
ghost use Rattle.well_typed.specs.Intrinsics as spec;

use crate::arguments::is_scalar_of_at;
use crate::asking::{answer, asks_rightly};
use crate::elements::{element_takes, element_value, shapes_differ};
use crate::moving::{moved, moves_others, moves_rightly};
use crate::reducing::{reduced, reduces_others, reduces_rightly};
use a95_base::Kind;
use f95_unit::Facts;
use sqlite_items::Items;
use std::alloc::{AllocError, Global};
use well_typed::{Family, Given};

/// The arguments are as the function takes them.
pub fn takes(
    alloc: Global,
    which: Family,
    dim: Option<u8>,
    gs: &[Given],
) -> Result<bool, AllocError>
    ensures { IfOk result (λ takes. takes ≡ spec.takes which dim gs.now) }
{
    match which {
        Family::ByElement(which) => element_takes(alloc, which, gs),
        Family::Trimming => Ok(is_scalar_of_at(Kind::Text, 0, gs)),
        Family::Asking(which) => Ok(asks_rightly(which, dim, gs)),
        Family::Reducing(which) => Ok(reduces_rightly(which, dim, gs)),
        Family::Moving(which) => Ok(moves_rightly(which, dim, gs)),
    }
}

/// Known extents that must be the same differ.
pub fn has_others(alloc: Global, which: Family, gs: &[Given]) -> Result<bool, AllocError>
    ensures { IfOk result (λ others. others ≡ spec.has_others which gs.now) }
{
    match which {
        Family::ByElement(_) => shapes_differ(alloc, gs),
        Family::Trimming | Family::Asking(_) => Ok(false),
        Family::Reducing(which) => reduces_others(alloc, which, gs),
        Family::Moving(which) => Ok(moves_others(which, gs)),
    }
}

fn a_text(alloc: Global) -> Facts
    ensures { result ≡ spec.a_scalar kind.Text }
{
    Facts {
        kind: Kind::Text,
        length: None,
        extents: Items::new(alloc),
    }
}

/// What the value is.
pub fn value_facts(
    alloc: Global,
    which: Family,
    dim: Option<u8>,
    gs: &[Given],
) -> Result<Facts, AllocError>
    ensures { IfOk result (λ made. made ≡ spec.value_facts which dim gs.now) }
{
    match which {
        Family::ByElement(which) => element_value(alloc, which, gs),
        Family::Trimming => Ok(a_text(alloc)),
        Family::Asking(which) => answer(alloc, which, dim, gs),
        Family::Reducing(which) => reduced(alloc, which, dim, gs),
        Family::Moving(which) => moved(alloc, which, dim, gs),
    }
}
