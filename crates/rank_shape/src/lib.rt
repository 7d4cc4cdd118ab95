//! Shapes, places, walks and loop orders, for every rank from 1 to 7 by one contract each. What a place's number is
//! stands in `specs/Shape.antt`, what a loop order is in `specs/Order.antt`, and what a walk meets in `specs/Walk.antt`.
#![tactic(auto)]

mod any_shape;
mod distance;
mod order;
mod shape;
mod tour;

pub use any_shape::AnyShape;
pub use distance::{Dist, Entry};
pub use order::Order;
pub use shape::{Place, Shape};
pub use tour::{Tour, element_order_walk, walk};
