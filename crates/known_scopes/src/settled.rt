//! Names that have no declaration, or are variables of the host.
ghost use Rattle.std.specs.Prelude.{◌≡◌, IfOk, not, ◌||◌, option_map};
ghost use Rattle.std.specs.List.{list_all};
ghost use Rattle.names_types.specs.Scopes.{is_undeclared, is_of_host, is_settled, means_variable};
ghost use Rattle.names_types.specs.View.{expr_of};
ghost use Rattle.known_scopes.specs.View.{scope_of};

use crate::asked::is_own;
use crate::known::Known;
use a95_base::SharedBytes;
use f95_tree::Expression;
use names_types::Meaning;
use scope_names::intrinsic_named;
use statement_names::expression_names;
use std::alloc::{AllocError, Global};

/// Whether the name has no declaration, in the scope or in its host, and is no intrinsic.
pub fn is_undeclared(known: &Known<'_>, name: &SharedBytes) -> bool
    ensures { result ≡ is_undeclared (scope_of known.now.scope) name.now }
{
    !is_own(known, name)
        && (known.scope.host.get(name).is_none() && intrinsic_named(name.as_slice()).is_none())
}

fn means_variable(meaning: Option<&Meaning>) -> bool
    ensures { result ≡ means_variable (option_map (λ m. m.now) meaning.entry) }
{
    match meaning {
        None => false,
        Some(Meaning::Constant(_)) => false,
        Some(Meaning::Variable(_)) => true,
        Some(Meaning::Called) => false,
    }
}

/// Whether the name is a variable of the host that the scope doesn't declare itself.
pub fn is_of_host(known: &Known<'_>, name: &SharedBytes) -> bool
    ensures { result ≡ is_of_host (scope_of known.now.scope) name.now }
{
    !is_own(known, name) && means_variable(known.scope.host.get(name))
}

fn is_unsettled(known: &Known<'_>, name: &SharedBytes) -> bool
    ensures { result ≡ (is_undeclared (scope_of known.now.scope) name.now || is_of_host (scope_of known.now.scope) name.now) }
{
    is_undeclared(known, name) || is_of_host(known, name)
}

fn all_are_settled(known: &Known<'_>, names: &[SharedBytes]) -> bool
    ensures { result
        ≡ list_all (λ n. not (is_undeclared (scope_of known.now.scope) n || is_of_host (scope_of known.now.scope) n)) names.now }
{
    for name in names {
        if is_unsettled(known, name) {
            return false;
        }
    }
    true
}

/// Whether no name in the expression is undeclared or a variable of the host.
pub fn is_settled(alloc: Global, known: &Known<'_>, e: &Expression) -> Result<bool, AllocError>
    ensures { IfOk result (λ b. b ≡ is_settled (scope_of known.now.scope) (expr_of e.now)) }
{
    let mut names = Vec::new(alloc);
    expression_names(e, &mut names)?;
    Ok(all_are_settled(known, names.as_slice()))
}
