//! What USE brings, with what it means: that stands before a prefix.
ghost use Rattle.std.specs.Prelude.{◌≡◌, IfOk};
ghost use Rattle.std.specs.List.{filter_map};
ghost use Rattle.scope_entries.specs.View.{entries_of};
ghost use Rattle.scope_names.specs.Tables.{meant_in};
ghost use Rattle.known_scopes.specs.Uses.{brought_name, brought_value};
ghost use Rattle.known_scopes.specs.View.{brought_to};

use declared_meanings::copy_meaning;
use name_table::NameTable;
use names_types::Meaning;
use scope_entries::{Entry, Form};
use scope_names::Meanings;
use std::alloc::{AllocError, Global};

fn brought_names(alloc: Global, entries: &[Entry<'_>]) -> Result<NameTable, AllocError>
    ensures { IfOk result (λ names. names ≡ filter_map brought_name (entries_of entries.now)) }
{
    let mut names = NameTable::new(alloc);
    for entry in entries {
        if let Form::Brings(_) = entry.form {
            names.push(alloc, entry.name.as_slice())?;
        }
    }
    Ok(names)
}

fn brought_meanings(alloc: Global, entries: &[Entry<'_>]) -> Result<Vec<Meaning>, AllocError>
    ensures { IfOk result (λ ms. ms.items ≡ filter_map brought_value (entries_of entries.now)) }
{
    let mut meanings = Vec::new(alloc);
    for entry in entries {
        if let Form::Brings(share) = entry.form {
            meanings.push(copy_meaning(alloc, &share.meaning)?)?;
        }
    }
    Ok(meanings)
}

/// What USE brings, with what it means.
#[tactic(auto, using(crate::proofs::Lists::brought_is))]
pub fn brought_to(alloc: Global, entries: &[Entry<'_>]) -> Result<Meanings, AllocError>
    ensures { IfOk result (λ t. meant_in t ≡ brought_to (entries_of entries.now)) }
{
    let names = brought_names(alloc, entries)?;
    let meanings = brought_meanings(alloc, entries)?;
    Ok(Meanings { names, meanings })
}
