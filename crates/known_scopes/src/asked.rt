//! What is asked of a name in a scope.
ghost use Rattle.std.specs.Prelude.{◌≡◌, take, slice_get, option_map};
ghost use Rattle.names_types.specs.Rules.{is_repeated, name_line, prefix_sense};
ghost use Rattle.names_types.specs.Scopes.{is_own, is_dummy, some_object, has_intent, own_names, constant_sense};
ghost use Rattle.scope_entries.specs.View.{entry_of};
ghost use Rattle.scope_names.specs.Tables.{meant_by};
ghost use Rattle.known_scopes.specs.Found.{first_found_line, first_named};
ghost use Rattle.known_scopes.specs.Listing.{IsListed};
ghost use Rattle.known_scopes.specs.View.{scope_of, declared_in, meant_there, senses_of};

use crate::known::Known;
use a95_base::SharedBytes;
use names_types::Meaning;
use scope_entries::Entry;
use scope_names::ConstantSenses;

/// Whether the scope has a declaration of the name.
pub fn is_own(known: &Known<'_>, name: &SharedBytes) -> bool
    ensures { result ≡ is_own (scope_of known.now.scope) name.now }
{
    known.own.declares(name)
}

pub fn is_dummy(known: &Known<'_>, name: &SharedBytes) -> bool
    ensures { result ≡ is_dummy (scope_of known.now.scope) name.now }
{
    known.dummies.contains(name.as_slice())
}

/// Whether the name stands more than once in the list of dummies.
#[tactic(auto, using(crate::proofs::Lists::repeated_is))]
pub fn is_repeated(known: &Known<'_>, name: &SharedBytes) -> bool
    ensures { result ≡ is_repeated (scope_of known.now.scope) name.now }
{
    known.repeats.contains(name.as_slice())
}

/// Whether a declaration gives the name INTENT.
#[tactic(auto, using(crate::proofs::Lists::some_is))]
pub fn has_intent(known: &Known<'_>, name: &SharedBytes) -> bool
    ensures { result ≡ some_object (scope_of known.now.scope) has_intent name.now }
{
    known.intended.contains(name.as_slice())
}

fn entry_at<'a>(entries: &[Entry<'a>], place: usize) -> Option<Entry<'a>>
    ensures { result ≡ slice_get entries.now place }
{
    entries.get(place).copied()
}

/// The first declaration of the name.
pub fn first_named<'a>(known: &Known<'a>, name: &SharedBytes) -> Option<Entry<'a>>
    requires listed { IsListed known.now }
    ensures { option_map entry_of result ≡ first_named name.now (declared_in known.now.scope) }
{
    match known.own.names.first_place(name.as_slice()) {
        None => None,
        Some(place) => entry_at(known.entries.as_slice(), place),
    }
}

fn first_line(heading: u32, first: Option<Entry<'_>>) -> u32
    ensures { result ≡ first_found_line heading (option_map entry_of first.entry) }
{
    match first {
        None => heading,
        Some(entry) => entry.line,
    }
}

/// The line of a rule that speaks of a name: its first declaration, or the heading.
#[tactic(auto, using(crate::proofs::Lists::first_line_is))]
pub fn name_line(heading: u32, known: &Known<'_>, name: &SharedBytes) -> u32
    requires listed { IsListed known.now }
    ensures { result ≡ name_line heading (scope_of known.now.scope) name.now }
{
    if is_repeated(known, name) {
        heading
    } else {
        first_line(heading, first_named(known, name))
    }
}

fn first_meanings(meanings: &[Meaning], place: usize) -> &[Meaning]
    ensures { result.now ≡ take place meanings.now }
{
    if place <= meanings.len() {
        &meanings[..place]
    } else {
        meanings
    }
}

/// What names mean in a constant expression at the declaration of this place.
#[tactic(auto, using(crate::proofs::Lists::meant_first))]
pub fn constant_senses<'b>(known: &'b Known<'_>, place: usize) -> ConstantSenses<'b>
    ensures before { meant_by result.names.now result.before.now ≡ take place (meant_there known.now.scope) }
    ensures senses { senses_of result
        ≡ constant_sense (own_names (scope_of known.now.scope)) (scope_of known.now.scope).host (take place (meant_there known.now.scope)) }
{
    ConstantSenses {
        own: &known.own.names,
        names: &known.own.names,
        before: first_meanings(known.own.meanings.as_slice(), place),
        host: known.scope.host,
    }
}

/// What names mean in a prefix.
pub fn prefix_senses<'b>(known: &'b Known<'_>) -> ConstantSenses<'b>
    ensures { senses_of result ≡ prefix_sense (scope_of known.now.scope) }
{
    ConstantSenses {
        own: &known.own.names,
        names: &known.brought.names,
        before: known.brought.meanings.as_slice(),
        host: known.scope.host,
    }
}
