//! Declarations of names.

use crate::expression::Expression;
use a95_base::SharedBytes;
use sqlite_items::Items;

/// `type , attribute :: entity , entity`
#[derive(Drop)]
pub struct Declaration {
    pub of: TypeSpec,
    pub attributes: Items<Attribute>,
    /// Whether `::` is written, which it may not be where there are no attributes and no initial values.
    pub colons: bool,
    pub entities: Items<Entity>,
}

#[derive(Drop)]
pub enum TypeSpec {
    Integer,
    Logical,
    Character(Length),
}

/// What stands behind CHARACTER.
#[derive(Drop)]
pub enum Length {
    /// Nothing, which means 1.
    One,
    /// `* number`
    Number(i32),
    /// `( e )`, or `( LEN = e )` where the keyword is written
    Given(bool, Expression),
    /// `( * )`, or `( LEN = * )` where the keyword is written
    Assumed(bool),
}

#[derive(Drop)]
pub enum Attribute {
    Parameter,
    Allocatable,
    Dimension(Items<Dim>),
    Intent(Intent),
}

#[derive(Clone, Copy)]
pub enum Intent {
    In,
    Out,
    /// `INOUT`
    InOut,
    /// `IN OUT`, which means the same
    InAndOut,
}

/// `name ( dim , dim ) = e`
#[derive(Drop)]
pub struct Entity {
    pub name: SharedBytes,
    pub dims: Option<Items<Dim>>,
    pub initial: Option<Expression>,
}

/// The bounds of one dimension.
#[derive(Drop)]
pub enum Dim {
    /// `upper`
    Upper(Expression),
    /// `lower : upper`
    Both(Expression, Expression),
    /// `lower :`
    Lower(Expression),
    /// `:`
    Deferred,
}
