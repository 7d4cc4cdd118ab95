//! The attributes of a declaration, and the bounds of an entity.
ghost use Rattle.std.specs.Prelude.{◌≡◌, map};
ghost use Rattle.std.specs.List.{list_any, filter_map};
ghost use Rattle.names_types.specs.Scopes.{is_parameter, first_dims, dims_of_attribute};
ghost use Rattle.names_types.specs.View.{attribute_of, dim_of};
ghost use Rattle.declared_meanings.specs.Objects.{object_in};

use a95_base::Line;
use f95_tree::{Attribute, Declaration, Dim, Entity};

/// Whether PARAMETER is among them.
pub fn has_parameter(attributes: &[Attribute]) -> bool
    ensures { result ≡ list_any is_parameter (map attribute_of attributes.now) }
{
    for attribute in attributes {
        if let Attribute::Parameter = attribute {
            return true;
        }
    }
    false
}

/// The bounds of the first DIMENSION among them.
fn attribute_dims(attributes: &[Attribute]) -> &[Dim]
    ensures { map dim_of result.now ≡ first_dims (filter_map dims_of_attribute (map attribute_of attributes.now)) }
{
    for attribute in attributes {
        if let Attribute::Dimension(dims) = attribute {
            return dims.as_slice();
        }
    }
    &[]
}

/// The bounds of an entity win over those of DIMENSION; a scalar has none.
pub fn dims<'a>(declaration: &'a (Line, Declaration), entity: &'a Entity) -> &'a [Dim]
    ensures { map dim_of result.now ≡ (object_in declaration.now entity.now).dims }
{
    match &entity.dims {
        Some(dims) => dims.as_slice(),
        None => attribute_dims(declaration.1.attributes.as_slice()),
    }
}
