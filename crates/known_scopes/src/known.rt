//! What is known of a scope.
ghost use Rattle.std.specs.Prelude.{◌≡◌};
ghost use Rattle.scope_names.specs.Tables.{meant_in, names_of};
ghost use Rattle.known_scopes.specs.declared.attributes.AttributeSort.TheVariants as sort;
ghost use Rattle.known_scopes.specs.Asked.{integers_in, names_with, repeats_of};
ghost use Rattle.known_scopes.specs.View.{declared_in, meant_there, brought_to, dummies_there};

use crate::scope::Scope;
use name_table::NameTable;
use scope_entries::Entry;
use scope_names::Meanings;

/// A scope with its declarations, what its names mean, what USE brings, its dummies, those that stand twice among them, and the
/// names that have INTENT, INTENT by which they may be read, and a first declaration as a scalar INTEGER.
#[derive(Drop)]
pub struct Known<'a> {
    pub scope: Scope<'a>,
    pub entries: Vec<Entry<'a>>,
    pub own: Meanings,
    pub brought: Meanings,
    pub dummies: NameTable,
    pub repeats: NameTable,
    pub intended: NameTable,
    pub read: NameTable,
    pub integers: NameTable,
    pub ghost has_names: { own.names ≡ names_of (declared_in scope) },
    pub ghost has_meanings: { meant_in own ≡ meant_there scope },
    pub ghost has_brought: { meant_in brought ≡ brought_to (declared_in scope) },
    pub ghost has_dummies: { dummies ≡ dummies_there scope },
    pub ghost has_repeats: { repeats ≡ repeats_of (dummies_there scope) },
    pub ghost has_intended: { intended ≡ names_with sort.Intended (declared_in scope) },
    pub ghost has_read: { read ≡ names_with sort.Read (declared_in scope) },
    pub ghost has_integers: { integers ≡ integers_in (declared_in scope) },
}
