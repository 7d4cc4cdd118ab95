//! Orders of loops.
ghost use Rattle.std.specs.Prelude.{◌≡◌, ℕ, ◌<◌, ◌≤◌, ◌↔◌, length, IsSome, IfSome, IsTrue};
ghost use Rattle.a95_base.specs.Lists.{Member};
ghost use Rattle.a95_base.specs.Limits.{greatest_rank};
ghost use Rattle.rank_shape.specs.Order.{levels, level_at, IsOrder, element_order_of};
ghost use Rattle.rank_shape.specs.Shape.{IsRank};

use std::marker::Model;

/// An order of the loops of rank `R`: each loop from 1 to `R` once, outermost first, and whether it runs backwards.
/// Contracts see the list of its levels.
#[derive(Clone, Copy, Debug, PartialEq, Eq)]
pub struct Order<const R: usize> {
    loops: [u8; R],
    down: [bool; R],
}

impl<const R: usize> Model for Order<R> {
    ghost use Rattle.std.specs.Prelude.{◌≡◌, List, map, length};
    ghost use Rattle.std.proofs.Common.{ap, ◌∙◌, sym};
    ghost use Rattle.rank_shape.specs.Order.{Level, levels, loops_of, downs_of, IsOrder};
    ghost use Rattle.rank_shape.specs.Shape.{IsRank};
    ghost use Rattle.rank_shape.specs.Fields.{OrderFields, loops_of-levels, downs_of-levels};

    ghost Value = { List Level };

    ghost view = { λ order. levels order.loops order.down };

    ghost invariant = { λ order. OrderFields R order.loops order.down };

    ghost inverse = { λ order. record { loops = loops_of order; down = downs_of order } };

    ghost inverse_ok = { λ order holds.
        ap (λ loops. record { loops = loops; down = downs_of (levels order.loops order.down) }) (loops_of-levels order.loops order.down (holds.loops_long ∙ sym holds.downs_long))
        ∙ ap (λ down. record { loops = order.loops; down = down }) (downs_of-levels order.loops order.down (holds.loops_long ∙ sym holds.downs_long)) };
}

impl<const R: usize> Order<R> {
    /// The order with these loops, or None where a number from 1 to `R` is missing among them.
    pub fn new(loops: [u8; R], down: [bool; R]) -> Option<Order<R>>
        requires { IsRank R }
        ensures named { IsSome result ↔ ((k : ℕ) → 1 ≤ k → k ≤ R → Member loops.entry k) }
        ensures order { IfSome result (λ order. order ≡ levels loops.entry down.entry) }
    {
        if !names_all(&loops) {
            return None;
        }
        Some(Order { loops, down })
    }

    /// Array element order: the last loop outermost, all loops forwards.
    pub fn element_order() -> Order<R>
        requires { IsRank R }
        ensures { result ≡ element_order_of R }
    {
        let mut loops = [0u8; R];
        for level in 0..R {
            loops[level] = (R - level) as u8;
        }
        Order {
            loops,
            down: [false; R],
        }
    }

    /// The number of the loop at this level, which is counted from the outside and from 0.
    pub fn loop_at(&self, level: usize) -> u8
        requires { level < R }
        ensures number { result ≡ (level_at self.now level).number }
        ensures least { 1 ≤ result }
        ensures most { result ≤ R }
    {
        self.loops[level]
    }

    /// Whether the loop at this level runs backwards.
    pub fn is_down(&self, level: usize) -> bool
        requires { level < R }
        ensures { result ≡ (level_at self.now level).down }
    {
        self.down[level]
    }

    /// What every order keeps, for callers that see its levels alone.
    pub fn known(&self)
        ensures ranked { IsRank R }
        ensures order { IsOrder R self.now }
        ensures long { length self.now ≡ R }
    {
        let _ = &self.loops;
    }
}

fn names_all<const R: usize>(loops: &[u8; R]) -> bool
    requires { R ≤ greatest_rank }
    ensures { IsTrue result ↔ ((k : ℕ) → 1 ≤ k → k ≤ R → Member loops.now k) }
{
    for k in 0..R {
        if !is_named(loops, k as u8 + 1) {
            return false;
        }
    }
    true
}

fn is_named<const R: usize>(loops: &[u8; R], number: u8) -> bool
    ensures { IsTrue result ↔ Member loops.now number }
{
    loops.contains(&number)
}
