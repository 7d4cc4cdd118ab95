//! What a declared name means.
ghost use Rattle.std.specs.Prelude.{◌≡◌, IfOk};
ghost use Rattle.names_types.specs.Scopes.{object_meaning};
ghost use Rattle.declared_meanings.specs.Objects.{object_in};

use crate::attributes::{dims, has_parameter};
use crate::constant::constant_value;
use a95_base::Line;
use constant_values::Senses;
use elemental_values::copy_valued;
use f95_tree::{Declaration, Entity};
use names_types::Meaning;
use std::alloc::{AllocError, Global};

pub fn copy_meaning(alloc: Global, meaning: &Meaning) -> Result<Meaning, AllocError>
    ensures { IfOk result (λ m. m ≡ meaning.now) }
{
    match meaning {
        Meaning::Constant(valued) => Ok(Meaning::Constant(copy_valued(alloc, valued)?)),
        Meaning::Variable(rank) => Ok(Meaning::Variable(*rank)),
        Meaning::Called => Ok(Meaning::Called),
    }
}

/// What an entity means by its declaration: a named constant where PARAMETER is among the attributes, else a variable.
pub fn object_meaning<S: Senses>(
    alloc: Global,
    senses: &S,
    declaration: &(Line, Declaration),
    entity: &Entity,
) -> Result<Meaning, AllocError>
    ensures { IfOk result (λ m. m ≡ object_meaning (S.meant senses.now) (object_in declaration.now entity.now)) }
{
    if has_parameter(declaration.1.attributes.as_slice()) {
        let value = constant_value(alloc, senses, &declaration.1.of, &entity.initial)?;
        Ok(Meaning::Constant(value))
    } else {
        Ok(Meaning::Variable(dims(declaration, entity).len()))
    }
}
