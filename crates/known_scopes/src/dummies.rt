//! The dummies of a scope.
ghost use Rattle.std.specs.Prelude.{◌≡◌, IfOk, map};
ghost use Rattle.names_types.specs.Scopes.{dummies_of};
ghost use Rattle.names_types.specs.View.{heading_dummies, maybe_words};
ghost use Rattle.scope_entries.specs.View.{place_of};
ghost use Rattle.known_scopes.specs.Asked.{repeats_of};

use a95_base::SharedBytes;
use f95_tree::Heading;
use name_table::NameTable;
use scope_entries::Place;
use sqlite_items::Items;
use std::alloc::{AllocError, Global};

fn maybe_words(words: &Option<Items<SharedBytes>>) -> &[SharedBytes]
    ensures { result.now ≡ maybe_words words.now }
{
    match words {
        None => &[],
        Some(words) => words.as_slice(),
    }
}

fn heading_dummies(heading: &Heading) -> &[SharedBytes]
    ensures { result.now ≡ heading_dummies heading.now }
{
    match heading {
        Heading::Subroutine(_, dummies) => maybe_words(dummies),
        Heading::Function(_, dummies, _) => dummies.as_slice(),
    }
}

/// The list of dummies of a procedure.
pub fn dummies_of<'a>(place: Place<'a>) -> &'a [SharedBytes]
    ensures { result.now ≡ dummies_of (place_of place.entry) }
{
    match place {
        Place::InMain => &[],
        Place::InModule => &[],
        Place::InProcedure(procedure) => heading_dummies(&procedure.procedure.heading),
    }
}

/// These names.
pub fn table_of(alloc: Global, words: &[SharedBytes]) -> Result<NameTable, AllocError>
    ensures { IfOk result (λ names. names ≡ words.now) }
{
    let mut names = NameTable::new(alloc);
    for word in words {
        names.push(alloc, word.as_slice())?;
    }
    Ok(names)
}

/// Those names that stand earlier too.
pub fn repeats_of(alloc: Global, words: &[SharedBytes]) -> Result<NameTable, AllocError>
    ensures { IfOk result (λ names. names ≡ repeats_of words.now) }
{
    let mut before = NameTable::new(alloc);
    let mut repeats = NameTable::new(alloc);
    for word in words {
        if before.contains(word.as_slice()) {
            repeats.push(alloc, word.as_slice())?;
        }
        before.push(alloc, word.as_slice())?;
    }
    Ok(repeats)
}
