//! All declarations of a scope.
ghost use Rattle.std.specs.Prelude.{◌≡◌, ◌++◌, [], map, reverse, IfOk, OnOk};
ghost use Rattle.names_types.specs.Scopes.{entries, heading_entries, scope};
ghost use Rattle.names_types.specs.View.{part_of, procedure_of};
ghost use Rattle.scope_entries.specs.View.{entries_of, place_of};

use crate::brought::add_brought;
use crate::entry::Entry;
use crate::written::{add_begun, add_declared, add_result};
use f95_tree::{Section, Subprogram};
use names_types::Offer;
use std::alloc::{AllocError, Global};

/// What a scope is.
#[derive(Clone, Copy)]
pub enum Place<'a> {
    InMain,
    InModule,
    InProcedure(&'a Subprogram),
}

/// What the heading of a procedure declares.
fn add_heading<'a>(place: Place<'a>, entries: &mut Vec<Entry<'a>>) -> Result<(), AllocError>
    ensures { OnOk result (entries_of entries.new.items ≡ entries_of entries.old.items ++ heading_entries (place_of place.entry)) }
{
    match place {
        Place::InMain => Ok(()),
        Place::InModule => Ok(()),
        Place::InProcedure(procedure) => add_result(procedure, entries),
    }
}

/// The declarations of a scope in the order of the text, where these modules end above it, the nearest last. Neither its host nor
/// its
/// statements declare a name in it.
pub fn entries<'a>(
    alloc: Global,
    above: &'a [Offer],
    place: Place<'a>,
    section: &'a Section,
    procedures: &'a [Subprogram],
) -> Result<Vec<Entry<'a>>, AllocError>
    ensures { IfOk result
        (λ es. entries_of es.items
        ≡ entries (scope (reverse above.now) [] (place_of place.entry) (part_of section.now []) (map procedure_of procedures.now))) }
{
    let mut entries = Vec::new(alloc);
    add_heading(place, &mut entries)?;
    add_brought(alloc, above, section.uses.as_slice(), &mut entries)?;
    add_declared(section.declarations.as_slice(), &mut entries)?;
    add_begun(procedures, &mut entries)?;
    Ok(entries)
}
