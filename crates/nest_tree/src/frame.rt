//! The loops of a nest, for every rank by one type.

use crate::access::{Amount, Form, Name};
use rank_shape::Order;

/// The extents and the order of `R` loops. The loop with a number has the extent with that number, counted from 1.
#[derive(Clone, Copy)]
pub struct Frame<const R: usize> {
    pub extents: [Amount; R],
    pub order: Order<R>,
}

/// The loops of a nest of any rank.
#[derive(Clone, Copy)]
pub enum AnyFrame {
    One(Frame<1>),
    Two(Frame<2>),
    Three(Frame<3>),
    Four(Frame<4>),
    Five(Frame<5>),
    Six(Frame<6>),
    Seven(Frame<7>),
}

/// Where an extent comes from, as far as the text tells: extents with equal headers are equal.
#[derive(Drop)]
pub enum Header {
    Constant(u32),
    /// The whole extent of a dimension, counted from 1, of a variable.
    Whole(Name, u8),
    /// The forms of lower bound, upper bound and stride of a triplet.
    Triplet(Form, Form, Form),
    Unknown,
}
