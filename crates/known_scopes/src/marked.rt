//! The names that have an attribute by one of their declarations.
ghost use Rattle.std.specs.Prelude.{◌≡◌, ◌&&◌, not, IfOk};
ghost use Rattle.names_types.specs.Scopes.{is_among, is_integer_scalar, of_object};
ghost use Rattle.scope_entries.specs.View.{entries_of, entry_of, form_of};
ghost use Rattle.known_scopes.specs.Asked.{has_such, integers_in, names_with};

use crate::attributes::{AttributeSort, has_sort};
use a95_base::Kind;
use constant_operators::is_kind;
use declared_meanings::{dims, kind_of};
use name_table::NameTable;
use scope_entries::{Entry, Form};
use std::alloc::{AllocError, Global};

fn has_such(sort: AttributeSort, form: Form<'_>) -> bool
    ensures { result ≡ of_object (has_such sort) (form_of form.entry) }
{
    match form {
        Form::Brings(_) => false,
        Form::Declares(declaration, _) => has_sort(sort, declaration.1.attributes.as_slice()),
        Form::Types(_) => false,
        Form::Begins => false,
    }
}

fn is_integer_scalar(form: Form<'_>) -> bool
    ensures { result ≡ of_object is_integer_scalar (form_of form.entry) }
{
    match form {
        Form::Brings(_) => false,
        Form::Declares(declaration, entity) => {
            is_kind(Kind::Int, kind_of(&declaration.1.of)) && dims(declaration, entity).len() == 0
        }
        Form::Types(_) => false,
        Form::Begins => false,
    }
}

/// Whether it is the first declaration of its name, and that of a scalar INTEGER.
fn begins_integer(before: &NameTable, entry: &Entry<'_>) -> bool
    ensures { result
        ≡ (not (is_among before.now (entry_of entry.now).name) && of_object is_integer_scalar (entry_of entry.now).form) }
{
    !before.contains(entry.name.as_slice()) && is_integer_scalar(entry.form)
}

/// The names whose first declaration is that of a scalar INTEGER.
pub fn integers_in(alloc: Global, entries: &[Entry<'_>]) -> Result<NameTable, AllocError>
    ensures { IfOk result (λ names. names ≡ integers_in (entries_of entries.now)) }
{
    let mut before = NameTable::new(alloc);
    let mut names = NameTable::new(alloc);
    for entry in entries {
        if begins_integer(&before, entry) {
            names.push(alloc, entry.name.as_slice())?;
        }
        before.push(alloc, entry.name.as_slice())?;
    }
    Ok(names)
}

/// The names of those that a declaration gives such an attribute.
pub fn names_with(
    alloc: Global,
    sort: AttributeSort,
    entries: &[Entry<'_>],
) -> Result<NameTable, AllocError>
    ensures { IfOk result (λ names. names ≡ names_with sort (entries_of entries.now)) }
{
    let mut names = NameTable::new(alloc);
    for entry in entries {
        if has_such(sort, entry.form) {
            names.push(alloc, entry.name.as_slice())?;
        }
    }
    Ok(names)
}
