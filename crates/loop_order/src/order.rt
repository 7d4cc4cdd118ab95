//! Which orders are legal, and what a legal order gives.
ghost use Rattle.std.specs.Prelude.{◌≡◌, ◌↔◌, IsTrue};
ghost use Rattle.std.specs.List.{list_all};
ghost use Rattle.a95_base.specs.Lists.{Every, Pairwise};
ghost use Rattle.rank_shape.specs.Walk.{tour};
ghost use Rattle.loop_order.specs.Apart.{IsApart};
ghost use Rattle.loop_order.specs.Legal.{IsLegal, distances_of, settles, turned};

use crate::sign::{Sign, sign_in};
use rank_shape::{Dist, Entry, Order, Shape};

/// Whether each of the distances is settled by the order: the first loop that it asks for, going inward, runs the way it
/// asks.
pub fn legal<const R: usize>(order: &Order<R>, dists: &[Dist<R>]) -> bool
    ensures legal { IsTrue result ↔ IsLegal order.now (distances_of R dists.now) }
    ensures settled { result ≡ list_all (settles order.now) (distances_of R dists.now) }
{
    for dist in dists {
        if !is_settled(order, &dist.entries) {
            return false;
        }
    }
    true
}

/// The law of legal orders: of two turns that lie one of the distances apart, the one that reads comes no later in the walk
/// than the one that stores.
pub fn reads_come_first<const R: usize>(shape: &Shape<R>, order: &Order<R>, dists: &[Dist<R>])
    requires { IsLegal order.now (distances_of R dists.now) }
    ensures { Every (λ distance. Pairwise (λ stores reads. ¬ IsApart distance stores reads) (tour order.now shape.now))
        (distances_of R dists.now) }
{
    order.known();
}

/// The same law for fused loops, whose distances go from the turn of the first to the turn of the second: where the loops, run
/// the other way, would be legal, the turn that reads comes no earlier in the walk than the one that stores.
pub fn stores_come_first<const R: usize>(shape: &Shape<R>, order: &Order<R>, dists: &[Dist<R>])
    requires { IsLegal (turned order.now) (distances_of R dists.now) }
    ensures { Every (λ distance. Pairwise (λ reads stores. ¬ IsApart distance stores reads) (tour order.now shape.now))
        (distances_of R dists.now) }
{
    order.known();
}

fn is_settled<const R: usize>(order: &Order<R>, entries: &[Entry; R]) -> bool
    ensures { result ≡ settles order.now entries.now }
{
    order.known();
    for level in 0..R {
        let down = order.is_down(level);
        match sign_in(entries, order.loop_at(level) as usize - 1) {
            Sign::Unknown => return false,
            Sign::Still => {}
            Sign::Up => return down,
            Sign::Down => return !down,
        }
    }
    true
}
