//! What there is to know of a scope.
ghost use Rattle.std.specs.Prelude.{◌≡◌, IfOk};
ghost use Rattle.scope_entries.specs.View.{entries_of};
ghost use Rattle.scope_names.specs.Tables.{meant_in, names_of};
ghost use Rattle.known_scopes.specs.declared.attributes.AttributeSort.TheVariants as sort;
ghost use Rattle.known_scopes.specs.Asked.{integers_in, names_with, repeats_of};
ghost use Rattle.known_scopes.specs.Listing.{IsListed};
ghost use Rattle.known_scopes.specs.View.{scope_of, declared_in, meant_there, brought_to, dummies_there};

use crate::attributes::AttributeSort;
use crate::brought::brought_to;
use crate::dummies::{dummies_of, repeats_of, table_of};
use crate::known::Known;
use crate::marked::{integers_in, names_with};
use crate::scope::Scope;
use name_table::NameTable;
use scope_entries::{Entry, entries};
use scope_names::{Meanings, meanings_of};
use std::alloc::{AllocError, Global};

/// The dummies of a scope, and those that stand twice among them.
#[derive(Drop)]
struct Given {
    dummies: NameTable,
    repeats: NameTable,
}

/// The names that have INTENT, INTENT by which they may be read, and a first declaration as a scalar INTEGER.
#[derive(Drop)]
struct Marked {
    intended: NameTable,
    read: NameTable,
    integers: NameTable,
}

fn declared_in<'a>(alloc: Global, scope: Scope<'a>) -> Result<Vec<Entry<'a>>, AllocError>
    ensures { IfOk result (λ es. entries_of es.items ≡ declared_in scope.entry) }
{
    entries(
        alloc,
        scope.above,
        scope.place,
        scope.section,
        scope.procedures,
    )
}

fn own_meanings<'a>(
    alloc: Global,
    scope: Scope<'a>,
    listed: &[Entry<'a>],
) -> Result<Meanings, AllocError>
    requires listed { entries_of listed.now ≡ declared_in scope }
    ensures names { IfOk result (λ t. t.names ≡ names_of (declared_in scope.entry)) }
    ensures meanings { IfOk result (λ t. meant_in t ≡ meant_there scope.entry) }
{
    meanings_of(alloc, scope.host, listed)
}

fn brought_here<'a>(
    alloc: Global,
    scope: Scope<'a>,
    listed: &[Entry<'a>],
) -> Result<Meanings, AllocError>
    requires listed { entries_of listed.now ≡ declared_in scope }
    ensures { IfOk result (λ t. meant_in t ≡ brought_to (declared_in scope.entry)) }
{
    brought_to(alloc, listed)
}

fn dummies_here(alloc: Global, scope: Scope<'_>) -> Result<NameTable, AllocError>
    ensures { IfOk result (λ names. names ≡ dummies_there scope.entry) }
{
    table_of(alloc, dummies_of(scope.place))
}

fn repeats_here(alloc: Global, scope: Scope<'_>) -> Result<NameTable, AllocError>
    ensures { IfOk result (λ names. names ≡ repeats_of (dummies_there scope.entry)) }
{
    repeats_of(alloc, dummies_of(scope.place))
}

fn names_here<'a>(
    alloc: Global,
    which: AttributeSort,
    scope: Scope<'a>,
    listed: &[Entry<'a>],
) -> Result<NameTable, AllocError>
    requires listed { entries_of listed.now ≡ declared_in scope }
    ensures { IfOk result (λ names. names ≡ names_with which (declared_in scope.entry)) }
{
    names_with(alloc, which, listed)
}

fn integers_here<'a>(
    alloc: Global,
    scope: Scope<'a>,
    listed: &[Entry<'a>],
) -> Result<NameTable, AllocError>
    requires listed { entries_of listed.now ≡ declared_in scope }
    ensures { IfOk result (λ names. names ≡ integers_in (declared_in scope.entry)) }
{
    integers_in(alloc, listed)
}

fn given_here(alloc: Global, scope: Scope<'_>) -> Result<Given, AllocError>
    ensures dummies { IfOk result (λ g. g.dummies ≡ dummies_there scope.entry) }
    ensures repeats { IfOk result (λ g. g.repeats ≡ repeats_of (dummies_there scope.entry)) }
{
    let dummies = dummies_here(alloc, scope)?;
    let repeats = repeats_here(alloc, scope)?;
    Ok(Given { dummies, repeats })
}

fn marked_here<'a>(
    alloc: Global,
    scope: Scope<'a>,
    listed: &[Entry<'a>],
) -> Result<Marked, AllocError>
    requires listed { entries_of listed.now ≡ declared_in scope }
    ensures intended { IfOk result (λ m. m.intended ≡ names_with sort.Intended (declared_in scope.entry)) }
    ensures read { IfOk result (λ m. m.read ≡ names_with sort.Read (declared_in scope.entry)) }
    ensures integers { IfOk result (λ m. m.integers ≡ integers_in (declared_in scope.entry)) }
{
    let intended = names_here(alloc, AttributeSort::Intended, scope, listed)?;
    let read = names_here(alloc, AttributeSort::Read, scope, listed)?;
    let integers = integers_here(alloc, scope, listed)?;
    Ok(Marked {
        intended,
        read,
        integers,
    })
}

/// What there is to know of a scope.
pub fn known_scope<'a>(alloc: Global, scope: Scope<'a>) -> Result<Known<'a>, AllocError>
    ensures scope { IfOk result (λ k. scope_of k.scope ≡ scope_of scope.entry) }
    ensures listed { IfOk result (λ k. IsListed k) }
{
    let given = given_here(alloc, scope)?;
    let entries = declared_in(alloc, scope)?;
    let own = own_meanings(alloc, scope, entries.as_slice())?;
    let brought = brought_here(alloc, scope, entries.as_slice())?;
    let marked = marked_here(alloc, scope, entries.as_slice())?;
    Ok(Known {
        scope,
        entries,
        own,
        brought,
        dummies: given.dummies,
        repeats: given.repeats,
        intended: marked.intended,
        read: marked.read,
        integers: marked.integers,
    })
}
