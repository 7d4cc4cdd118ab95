//! What a name means in a constant expression: of the scope's own names those alone that stand before it.
ghost use Rattle.std.specs.Prelude.{◌≡◌, IfOk, option_map};
ghost use Rattle.names_types.specs.Keywords.{intrinsic_named};
ghost use Rattle.names_types.specs.Scopes.{sense_of, intrinsic_sense, host_sense, constant_sense, meaning_in};
ghost use Rattle.scope_names.specs.Tables.{meant_by, meant_in};

use crate::meanings::{Meanings, known_meaning};
use a95_base::SharedBytes;
use constant_values::Senses;
use elemental_values::copy_valued;
use intrinsic_table::{Intrinsic, interface};
use name_table::NameTable;
use names_types::{Meaning, Sense};
use std::alloc::{AllocError, Global};

/// The intrinsic of a name, whether the name is declared or not.
pub fn intrinsic_named(name: &[u8]) -> Option<Intrinsic>
    ensures { result ≡ intrinsic_named name.now }
{
    interface(name)
}

fn sense_of(alloc: Global, meaning: Option<&Meaning>) -> Result<Sense, AllocError>
    ensures { IfOk result (λ s. s ≡ sense_of (option_map (λ m. m.now) meaning.entry)) }
{
    match meaning {
        None => Ok(Sense::NamesOther),
        Some(Meaning::Constant(valued)) => Ok(Sense::Names(copy_valued(alloc, valued)?)),
        Some(Meaning::Variable(_)) => Ok(Sense::NamesOther),
        Some(Meaning::Called) => Ok(Sense::NamesOther),
    }
}

/// An intrinsic, where no declaration hides it.
fn intrinsic_sense(name: &SharedBytes) -> Sense
    ensures { result ≡ intrinsic_sense (intrinsic_named name.now) }
{
    match intrinsic_named(name.as_slice()) {
        None => Sense::NamesOther,
        Some(which) => Sense::NamesIntrinsic(which),
    }
}

fn host_sense(alloc: Global, host: &Meanings, name: &SharedBytes) -> Result<Sense, AllocError>
    ensures { IfOk result (λ s. s ≡ host_sense (meaning_in (meant_in host.now) name.now) name.now) }
{
    match host.get(name) {
        None => Ok(intrinsic_sense(name)),
        Some(meaning) => sense_of(alloc, Some(meaning)),
    }
}

/// What names mean where the scope has these names of its own, the first of `names` mean what `before` says, and the names of the
/// host mean what `host` says.
#[derive(Clone, Copy)]
pub struct ConstantSenses<'a> {
    pub own: &'a NameTable,
    pub names: &'a NameTable,
    pub before: &'a [Meaning],
    pub host: &'a Meanings,
}

impl<'a> Senses for ConstantSenses<'a> {
    ghost meant = { λ s. constant_sense s.own.now (meant_in s.host.now) (meant_by s.names.now s.before.now) };

    fn sense(&self, alloc: Global, name: &SharedBytes) -> Result<Sense, AllocError> {
        if self.own.contains(name.as_slice()) {
            sense_of(alloc, known_meaning(self.names, self.before, name))
        } else {
            host_sense(alloc, self.host, name)
        }
    }
}
