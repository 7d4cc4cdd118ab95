//! Parts of the questions that a source asks.

use a95_base::Scalar;
use f95_unit::Facts;

/// What stands in the brackets behind a name: a value, a triplet, or a value with a keyword.
#[derive(Drop)]
pub enum Listed {
    Plain(Facts),
    Ranged,
    Keyed,
}

/// The values of a CASE. A bound that is left out is absent.
#[derive(Drop)]
pub struct Range {
    pub lower: Option<Scalar>,
    pub upper: Option<Scalar>,
}
