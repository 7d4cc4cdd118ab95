//! The greedy choice of a legal order, from the outermost loop inward.
ghost use Rattle.std.specs.Prelude.{◌≡◌, ◌+◌, ◌≤◌, ◌<◌, ◌||◌, List, IfSome, IfNone, find, option_map};
ghost use Rattle.a95_base.specs.Lists.{down_to_one};
ghost use Rattle.a95_base.specs.Limits.{greatest_rank};
ghost use Rattle.rank_shape.specs.Order.{Level};
ghost use Rattle.rank_shape.specs.Shape.{IsRank};
ghost use Rattle.loop_order.specs.Choice.{IsAllowed, choice, chosen, some_entry, suits, is_unknown, is_up, is_down};
ghost use Rattle.loop_order.specs.Left.{loops_left, open_distances, is_open};
ghost use Rattle.loop_order.specs.Legal.{IsLegal, distances_of};

use crate::order::legal;
use crate::sign::{Sign, sign_in};
use rank_shape::{Dist, Entry, Order};

/// A legal order of the loops for these distances, or None where no allowed order is legal. A statement that isn't `free`
/// may use array element order alone. Else the choice goes from the outside in, and takes the highest-numbered loop in
/// which no distance left has Any and no two have opposite signs.
pub fn choose<const R: usize>(dists: &[Dist<R>], free: bool) -> Option<Order<R>>
    requires { IsRank R }
    ensures chosen { result ≡ chosen free R (distances_of R dists.now) }
    ensures some { IfSome result (λ order. IsAllowed free R order × IsLegal order (distances_of R dists.now)) }
    ensures none { IfNone result ((order : List Level) → IsAllowed free R order → IsLegal order (distances_of R dists.now) → ⊥) }
{
    if free {
        return greedy(dists);
    }
    let order = Order::element_order();
    if legal(&order, dists) {
        Some(order)
    } else {
        None
    }
}

fn greedy<const R: usize>(dists: &[Dist<R>]) -> Option<Order<R>>
    requires { IsRank R }
    ensures { result ≡ choice R (down_to_one R) (distances_of R dists.now) }
{
    let mut loops = [0u8; R];
    let mut down = [false; R];
    let mut taken = [false; R];
    for level in 0..R {
        let Some(next) = next_level(dists, &taken) else {
            return None;
        };
        loops[level] = next.number;
        down[level] = next.down;
        taken[next.number as usize - 1] = true;
    }
    Order::new(loops, down)
}

#[derive(Clone, Copy)]
struct NextLevel {
    number: u8,
    down: bool,
}

// The highest-numbered loop left that suits the distances not yet settled.
fn next_level<const R: usize>(dists: &[Dist<R>], taken: &[bool; R]) -> Option<NextLevel>
    requires { R ≤ greatest_rank }
    ensures first { option_map (λ next. next.number) result ≡ find (λ loop. suits loop (open_distances taken.now (distances_of R dists.now)))
        (loops_left R taken.now) }
    ensures direction { IfSome result (λ next. next.down ≡ some_entry is_up next.number (open_distances taken.now (distances_of R dists.now))) }
{
    for dim in (0..R).rev() {
        if !taken[dim] {
            let asked = asked_of(dists, taken, dim);
            if !asked.unknown && !(asked.up && asked.down) {
                return Some(NextLevel {
                    number: dim as u8 + 1,
                    down: asked.up,
                });
            }
        }
    }
    None
}

/// What the distances left ask of a loop.
#[derive(Clone, Copy)]
struct Asked {
    unknown: bool,
    up: bool,
    down: bool,
}

fn asked_of<const R: usize>(dists: &[Dist<R>], taken: &[bool; R], dim: usize) -> Asked
    requires { dim < R }
    ensures unknown { result.unknown ≡ some_entry is_unknown (dim + 1) (open_distances taken.now (distances_of R dists.now)) }
    ensures up { result.up ≡ some_entry is_up (dim + 1) (open_distances taken.now (distances_of R dists.now)) }
    ensures down { result.down ≡ some_entry is_down (dim + 1) (open_distances taken.now (distances_of R dists.now)) }
{
    let mut asked = Asked {
        unknown: false,
        up: false,
        down: false,
    };
    for dist in dists {
        if leaves_open(taken, &dist.entries) {
            asked = with_sign(asked, sign_in(&dist.entries, dim));
        }
    }
    asked
}

fn with_sign(asked: Asked, sign: Sign) -> Asked
    ensures unknown { result.unknown ≡ (is_unknown sign || asked.unknown) }
    ensures up { result.up ≡ (is_up sign || asked.up) }
    ensures down { result.down ≡ (is_down sign || asked.down) }
{
    match sign {
        Sign::Unknown => Asked {
            unknown: true,
            ..asked
        },
        Sign::Still => asked,
        Sign::Up => Asked { up: true, ..asked },
        Sign::Down => Asked {
            down: true,
            ..asked
        },
    }
}

// Whether none of the loops taken settles this distance.
#[tactic(auto, using(crate::proofs::Lefts::open_steps))]
fn leaves_open<const R: usize>(taken: &[bool; R], entries: &[Entry; R]) -> bool
    ensures { result ≡ is_open taken.now entries.now }
{
    for dim in 0..R {
        if taken[dim] && !sign_in(entries, dim).is_still() {
            return false;
        }
    }
    true
}
