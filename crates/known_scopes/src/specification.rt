//! What names mean in a specification expression: a scalar dummy may be read, and an array's bounds may be asked for.
ghost use Rattle.std.specs.Prelude.{◌≡◌, ◌&&◌, IfOk, Some, option_map};
ghost use Rattle.constant_operators.specs.declared.value.Worth.TheVariants.{Unknown};
ghost use Rattle.constant_operators.specs.Operators.{an_integer, valued_as};
ghost use Rattle.names_types.specs.declared.sense.Sense.TheVariants.{Names};
ghost use Rattle.names_types.specs.Scopes.{is_readable, is_integer_scalar, some_object, first_object, means_array};
ghost use Rattle.names_types.specs.Scopes.{specification_sense};
ghost use Rattle.scope_names.specs.Tables.{meant_by};
ghost use Rattle.known_scopes.specs.Asked.{has_such};
ghost use Rattle.known_scopes.specs.Reading.{specification_with};
ghost use Rattle.known_scopes.specs.declared.attributes.AttributeSort.TheVariants as sort;
ghost use Rattle.known_scopes.specs.View.{scope_of, senses_of};

use crate::asked::is_dummy;
use crate::known::Known;
use a95_base::{Kind, SharedBytes};
use constant_operators::{Facts, Valued, Worth};
use constant_values::Senses;
use names_types::{Meaning, Sense};
use scope_names::{ConstantSenses, known_meaning};
use std::alloc::{AllocError, Global};

#[tactic(auto, using(crate::proofs::Lists::integer_is))]
fn is_first_integer(known: &Known<'_>, name: &SharedBytes) -> bool
    ensures { result ≡ first_object (scope_of known.now.scope) is_integer_scalar name.now }
{
    known.integers.contains(name.as_slice())
}

#[tactic(auto, using(crate::proofs::Lists::some_is))]
fn may_be_read(known: &Known<'_>, name: &SharedBytes) -> bool
    ensures { result ≡ some_object (scope_of known.now.scope) (has_such sort.Read) name.now }
{
    known.read.contains(name.as_slice())
}

/// A scalar INTEGER dummy whose value may be read where the procedure begins.
fn is_readable(known: &Known<'_>, name: &SharedBytes) -> bool
    ensures { result ≡ is_readable (scope_of known.now.scope) name.now }
{
    is_dummy(known, name) && (is_first_integer(known, name) && may_be_read(known, name))
}

fn means_array(meaning: Option<&Meaning>) -> bool
    ensures { result ≡ means_array (option_map (λ m. m.now) meaning.entry) }
{
    match meaning {
        None => false,
        Some(Meaning::Constant(_)) => false,
        Some(Meaning::Variable(rank)) => *rank > 0,
        Some(Meaning::Called) => false,
    }
}

fn an_integer() -> Sense
    ensures { result ≡ Names (valued_as an_integer Unknown) }
{
    Sense::Names(Valued {
        facts: Facts {
            kind: Kind::Int,
            length: None,
        },
        worth: Worth::Unknown,
    })
}

/// What names mean in a specification expression, where in a constant one they mean what `constant` says.
#[derive(Drop)]
pub struct SpecificationSenses<'a, 'b> {
    pub known: &'b Known<'a>,
    pub constant: ConstantSenses<'b>,
}

impl<'a, 'b> Senses for SpecificationSenses<'a, 'b> {
    ghost meant = { λ s. specification_with (scope_of s.known.now.scope) (meant_by s.constant.names.now s.constant.before.now) (senses_of s.constant) };

    fn sense(&self, alloc: Global, name: &SharedBytes) -> Result<Sense, AllocError> {
        if is_readable(self.known, name) {
            Ok(an_integer())
        } else if is_dummy(self.known, name)
            && means_array(known_meaning(self.constant.names, self.constant.before, name))
        {
            Ok(Sense::NamesArray)
        } else {
            self.constant.sense(alloc, name)
        }
    }
}
