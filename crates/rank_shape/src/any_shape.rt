//! Shapes of any rank.
ghost use Rattle.std.specs.Prelude.{◌≡◌, pos, length};
ghost use Rattle.rank_shape.specs.AnyShape.{extents_of};
ghost use Rattle.rank_shape.specs.Shape.{size_of};

use crate::shape::Shape;

/// A shape of any rank.
#[derive(Clone, Copy, Debug, PartialEq, Eq)]
pub enum AnyShape {
    One(Shape<1>),
    Two(Shape<2>),
    Three(Shape<3>),
    Four(Shape<4>),
    Five(Shape<5>),
    Six(Shape<6>),
    Seven(Shape<7>),
}

impl AnyShape {
    /// How many dimensions there are.
    pub fn rank(&self) -> usize
        ensures { result ≡ length (extents_of self.now) }
    {
        match self {
            AnyShape::One(shape) => shape.rank(),
            AnyShape::Two(shape) => shape.rank(),
            AnyShape::Three(shape) => shape.rank(),
            AnyShape::Four(shape) => shape.rank(),
            AnyShape::Five(shape) => shape.rank(),
            AnyShape::Six(shape) => shape.rank(),
            AnyShape::Seven(shape) => shape.rank(),
        }
    }

    /// How many places there are.
    pub fn size(&self) -> i64
        ensures { result ≡ pos (size_of (extents_of self.now)) }
    {
        match self {
            AnyShape::One(shape) => shape.size(),
            AnyShape::Two(shape) => shape.size(),
            AnyShape::Three(shape) => shape.size(),
            AnyShape::Four(shape) => shape.size(),
            AnyShape::Five(shape) => shape.size(),
            AnyShape::Six(shape) => shape.size(),
            AnyShape::Seven(shape) => shape.size(),
        }
    }
}
