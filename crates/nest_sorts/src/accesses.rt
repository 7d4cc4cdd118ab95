//! Which accesses fit their arrays and the loops around.
ghost use Rattle.std.specs.Prelude.{◌≡◌};
ghost use Rattle.std.specs.List.{list_all};
ghost use Rattle.nest_tree.specs.Sound.{fits_amount, is_loop, fits_along, is_own_text, fits_portion, fits_access};
ghost use Rattle.nest_tree.specs.View.{procedure_of};
ghost use Rattle.nest_tree.specs.declared.access.Dimension.{Dimension};
ghost use Rattle.nest_sorts.specs.Seen.{scope_of};

use crate::names::{has_rank, scalar_at, sort_of_name};
use crate::scope::Scope;
use crate::sorts::{exact_fits, some_serves};
use nest_tree::{Access, Along, Amount, Dimension, Name, Portion, Procedure, Sort};

fn fits_amount(own: &Procedure, amount: Amount) -> bool
    ensures { result ≡ fits_amount (procedure_of own.now) amount }
{
    match amount {
        Amount::Number(z) => exact_fits(z),
        Amount::Kept(k) => some_serves(scalar_at(own, k), Sort::Exact),
    }
}

pub fn is_loop(scope: &Scope, number: u8) -> bool
    ensures { result ≡ is_loop (scope_of scope.now) number }
{
    1 <= number && usize::from(number) <= scope.loops
}

fn fits_along(scope: &Scope, along: Along) -> bool
    ensures { result ≡ fits_along (scope_of scope.now) along }
{
    match along {
        Along::Alone(a) => fits_amount(scope.own, a),
        Along::Steps(number, start, stride) => {
            is_loop(scope, number)
                && fits_amount(scope.own, start)
                && fits_amount(scope.own, stride)
        }
        Along::Listed(number, list) => is_loop(scope, number) && list < scope.own.lists,
    }
}

fn all_fit(scope: &Scope, dimensions: &[Dimension]) -> bool
    ensures { result ≡ list_all (λ (d : Dimension). fits_along (scope_of scope.now) d.along) dimensions.now }
{
    for dimension in dimensions {
        if !fits_along(scope, dimension.along) {
            return false;
        }
    }
    true
}

/// Whether the elements are texts of a declared variable.
pub fn is_own_text(own: &Procedure, name: Name) -> bool
    ensures { result ≡ is_own_text (procedure_of own.now) name }
{
    match name {
        Name::Own(_) => some_serves(sort_of_name(own, name), Sort::Text),
        Name::Temp(_) => false,
    }
}

fn fits_portion(own: &Procedure, name: Name, portion: Option<Portion>) -> bool
    ensures { result ≡ fits_portion (procedure_of own.now) name portion }
{
    match portion {
        None => true,
        Some(p) => is_own_text(own, name) && fits_amount(own, p.first) && fits_amount(own, p.last),
    }
}

pub fn fits_access(scope: &Scope, access: &Access) -> bool
    ensures { result ≡ fits_access (scope_of scope.now) access.now }
{
    has_rank(scope.own, access.name, access.dimensions.len())
        && all_fit(scope, access.dimensions.as_slice())
        && fits_portion(scope.own, access.name, access.portion)
}
