//! The meanings of a scope's names, one declaration after the other.
ghost use Rattle.std.specs.Prelude.{◌≡◌, IfOk};
ghost use Rattle.names_types.specs.Scopes.{form_meaning};
ghost use Rattle.scope_entries.specs.View.{entries_of, form_of};
ghost use Rattle.scope_names.specs.Tables.{names_of, all_meant, meant_in};

use crate::meanings::Meanings;
use crate::senses::ConstantSenses;
use constant_values::Senses;
use declared_meanings::{copy_meaning, object_meaning};
use name_table::NameTable;
use names_types::Meaning;
use scope_entries::{Entry, Form};
use std::alloc::{AllocError, Global};

/// The names of declarations in their order.
fn own_names(alloc: Global, entries: &[Entry<'_>]) -> Result<NameTable, AllocError>
    ensures { IfOk result (λ names. names ≡ names_of (entries_of entries.now)) }
{
    let mut names = NameTable::new(alloc);
    for entry in entries {
        names.push(alloc, entry.name.as_slice())?;
    }
    Ok(names)
}

fn form_meaning<S: Senses>(alloc: Global, senses: &S, form: Form<'_>) -> Result<Meaning, AllocError>
    ensures { IfOk result (λ m. m ≡ form_meaning (S.meant senses.now) (form_of form.entry)) }
{
    match form {
        Form::Brings(share) => copy_meaning(alloc, &share.meaning),
        Form::Declares(declaration, entity) => object_meaning(alloc, senses, declaration, entity),
        Form::Types(_) => Ok(Meaning::Variable(0)),
        Form::Begins => Ok(Meaning::Called),
    }
}

/// What the names of a scope mean, whose declarations these are, in a host whose names mean this.
pub fn meanings_of(
    alloc: Global,
    host: &Meanings,
    entries: &[Entry<'_>],
) -> Result<Meanings, AllocError>
    ensures names { IfOk result (λ t. t.names ≡ names_of (entries_of entries.now)) }
    ensures meanings { IfOk result (λ t. meant_in t ≡ all_meant (meant_in host.now) (entries_of entries.now)) }
{
    let names = own_names(alloc, entries)?;
    let mut own = Meanings {
        names,
        meanings: Vec::new(alloc),
    };
    for entry in entries {
        let senses = ConstantSenses {
            own: &own.names,
            names: &own.names,
            before: own.meanings.as_slice(),
            host,
        };
        let meaning = form_meaning(alloc, &senses, entry.form)?;
        own.meanings.push(meaning)?;
    }
    Ok(own)
}
