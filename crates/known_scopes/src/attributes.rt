//! The attributes of a declaration.
ghost use Rattle.std.specs.Prelude.{◌≡◌, ◌||◌, map, length, nat_lt};
ghost use Rattle.std.specs.List.{list_any, filter};
ghost use Rattle.names_types.specs.Rules.{has_one_twice, more_than_one};
ghost use Rattle.names_types.specs.Scopes.{may_be_read};
ghost use Rattle.names_types.specs.View.{attribute_of};
ghost use Rattle.known_scopes.specs.declared.attributes.AttributeSort.TheVariants as sort;
ghost use Rattle.known_scopes.specs.Sorts.{is_of_sort};

use f95_tree::{Attribute, Intent};

/// What an attribute is, and for INTENT also whether the value may be read.
#[derive(Clone, Copy)]
pub enum AttributeSort {
    Parameter,
    Allocatable,
    Dimension,
    Intended,
    Read,
}

fn may_be_read(intent: Intent) -> bool
    ensures { result ≡ may_be_read intent }
{
    match intent {
        Intent::In => true,
        Intent::Out => false,
        Intent::InOut => true,
        Intent::InAndOut => true,
    }
}

fn is_read(attribute: &Attribute) -> bool
    ensures { result ≡ is_of_sort sort.Read (attribute_of attribute.now) }
{
    match attribute {
        Attribute::Parameter => false,
        Attribute::Allocatable => false,
        Attribute::Dimension(_) => false,
        Attribute::Intent(intent) => may_be_read(*intent),
    }
}

fn is_of_sort(which: AttributeSort, attribute: &Attribute) -> bool
    ensures { result ≡ is_of_sort which (attribute_of attribute.now) }
{
    match which {
        AttributeSort::Parameter => matches!(attribute, Attribute::Parameter),
        AttributeSort::Allocatable => matches!(attribute, Attribute::Allocatable),
        AttributeSort::Dimension => matches!(attribute, Attribute::Dimension(_)),
        AttributeSort::Intended => matches!(attribute, Attribute::Intent(_)),
        AttributeSort::Read => is_read(attribute),
    }
}

/// Whether one of this sort is among them.
pub fn has_sort(which: AttributeSort, attributes: &[Attribute]) -> bool
    ensures { result ≡ list_any (is_of_sort which) (map attribute_of attributes.now) }
{
    for attribute in attributes {
        if is_of_sort(which, attribute) {
            return true;
        }
    }
    false
}

fn has_two(which: AttributeSort, attributes: &[Attribute]) -> bool
    ensures { result ≡ more_than_one (is_of_sort which) (map attribute_of attributes.now) }
{
    let mut seen = false;
    for attribute in attributes {
        if is_of_sort(which, attribute) {
            if seen {
                return true;
            }
            seen = true;
        }
    }
    false
}

/// Whether there are two of one attribute.
pub fn has_one_twice(attributes: &[Attribute]) -> bool
    ensures { result ≡ has_one_twice (map attribute_of attributes.now) }
{
    has_two(AttributeSort::Parameter, attributes)
        || (has_two(AttributeSort::Allocatable, attributes)
            || (has_two(AttributeSort::Dimension, attributes)
                || has_two(AttributeSort::Intended, attributes)))
}
