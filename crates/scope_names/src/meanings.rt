//! The names of a scope, and what the first of them mean.
ghost use Rattle.std.specs.Prelude.{◌≡◌, slice_get, option_map};
ghost use Rattle.names_types.specs.Scopes.{is_among, meaning_in};
ghost use Rattle.scope_names.specs.Tables.{meant_by, meant_in};

use a95_base::SharedBytes;
use name_table::NameTable;
use names_types::Meaning;

/// There may be fewer meanings than names, while they are being found.
#[derive(Drop)]
pub struct Meanings {
    pub names: NameTable,
    pub meanings: Vec<Meaning>,
}

/// What the first of these names that is this one means, where the first of them mean this.
pub fn known_meaning<'a>(
    names: &NameTable,
    meanings: &'a [Meaning],
    name: &SharedBytes,
) -> Option<&'a Meaning>
    ensures { option_map (λ m. m.now) result ≡ meaning_in (meant_by names.now meanings.now) name.now }
{
    match names.first_place(name.as_slice()) {
        None => None,
        Some(place) => at(meanings, place),
    }
}

fn at(meanings: &[Meaning], place: usize) -> Option<&Meaning>
    ensures { option_map (λ m. m.now) result ≡ slice_get meanings.now place }
{
    meanings.get(place)
}

impl Meanings {
    /// Whether the scope has a declaration of this name, be its meaning known or not.
    pub fn declares(&self, name: &SharedBytes) -> bool
        ensures { result ≡ is_among self.now.names name.now }
    {
        self.names.contains(name.as_slice())
    }

    /// What the first of this name means, where that is known.
    pub fn get(&self, name: &SharedBytes) -> Option<&Meaning>
        ensures { option_map (λ m. m.now) result ≡ meaning_in (meant_in self.now) name.now }
    {
        known_meaning(&self.names, self.meanings.as_slice(), name)
    }
}
