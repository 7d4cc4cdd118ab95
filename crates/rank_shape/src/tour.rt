//! Walks over the places of a shape.
ghost use Rattle.std.specs.Prelude.{◌≡◌, ◌<◌, ◌≤◌, map, pos};
ghost use Rattle.a95_base.specs.Limits.{most_elements};
ghost use Rattle.rank_shape.specs.Order.{element_order_of};
ghost use Rattle.rank_shape.specs.Shape.{places_of};
ghost use Rattle.rank_shape.specs.Walk.{tour, IsWhole};
ghost use Rattle.rank_shape.specs.Turn.{visited, turns_in, subscript_at};

use crate::order::Order;
use crate::shape::{Place, Shape};
use std::marker::Model;

/// The places of a shape in an order of loops, from `walk`. Contracts see the list of the places that are left.
#[derive(Debug, Drop)]
pub struct Tour<const R: usize> {
    shape: Shape<R>,
    order: Order<R>,
    size: u64,
    turn: u64,
}

impl<const R: usize> Model for Tour<R> {
    ghost use Rattle.std.specs.Prelude.{List, ℕ, drop};
    ghost use Rattle.rank_shape.specs.Walk.{tour, IsTour};

    ghost Value = { List (List ℕ) };

    ghost view = { λ walk. drop walk.turn (tour walk.order walk.shape) };

    ghost invariant = { λ walk. IsTour R walk.shape walk.order walk.size walk.turn };
}

/// Every place of the shape once, in this order: nested loops, each over its dimension.
pub fn walk<const R: usize>(shape: Shape<R>, order: Order<R>) -> Tour<R>
    ensures in_order { result ≡ tour order.entry shape.entry }
    ensures whole { IsWhole shape.entry result }
{
    shape.known();
    order.known();
    let size = shape.size() as u64;
    Tour {
        shape,
        order,
        size,
        turn: 0,
    }
}

/// The law of array element order: its walk has the places by their numbers.
pub fn element_order_walk<const R: usize>(shape: &Shape<R>)
    ensures { tour (element_order_of R) shape.now ≡ places_of shape.now }
{
    shape.known();
}

impl<const R: usize> Iterator for Tour<R> {
    ghost use Rattle.std.specs.Iterator.{YieldsFirst, item_count};
    ghost use Rattle.rank_shape.specs.Visits.{visits};

    type Item = Place<R>;

    ghost next_gives = { YieldsFirst (visits R) };

    ghost remaining = { item_count (visits R) };

    fn next(&mut self) -> Option<Place<R>> {
        if self.turn == self.size {
            return None;
        }
        let place = place_of_turn(&self.shape, &self.order, self.size, self.turn);
        self.turn += 1;
        Some(place)
    }
}

fn place_of_turn<const R: usize>(
    shape: &Shape<R>,
    order: &Order<R>,
    size: u64,
    turn: u64,
) -> Place<R>
    requires turns { size ≡ turns_in order.now shape.now }
    requires small { size ≤ most_elements }
    requires below { turn < size }
    ensures { result.at ≡ map pos (visited order.now shape.now (map (λ extent. 0) shape.now) turn) }
{
    shape.known();
    order.known();
    let mut at = [0i64; R];
    let mut inner = size;
    let mut left = turn;
    for level in 0..R {
        let dim = order.loop_at(level) as usize - 1;
        let extent = shape.natural_extent(dim);
        inner /= extent;
        at[dim] = subscript(order.is_down(level), extent, left / inner) as i64;
        left %= inner;
    }
    Place { at }
}

// The subscript at this turn of a loop over its dimension.
fn subscript(down: bool, extent: u64, turn: u64) -> u64
    requires { turn < extent }
    ensures subscript { result ≡ subscript_at down extent turn }
    ensures below { result < extent }
{
    if down { extent - 1 - turn } else { turn }
}
