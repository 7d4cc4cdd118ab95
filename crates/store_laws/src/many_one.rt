//! The test whether a statement stores into one element twice: before all stores, as it means, or behind them. Both stand in
//! `specs/ManyOne.antt`.

ghost use Rattle.loop_order.specs.Legal.{IsLegal, distances_of};
ghost use Rattle.store_laws.specs.ManyOne.{TestedBehind, TestedBehindInLegalOrder, TestedBetween, MarksTell};

use rank_shape::{Dist, Order, Shape};

/// Where no later turn looks at what an earlier one stored, stores at once with the test behind them end as all evaluations,
/// then the test, and then the stores.
pub fn test_behind_stores<T, S, V, F>()
    ensures { TestedBehind T S V F }
{}

/// The same in a legal order of the loops, for a statement whose stores into different elements may change places: it ends
/// as in array element order. Where one element stands twice nobody sees what was stored.
pub fn test_behind_in_legal_order<S, V, F, const R: usize>(
    shape: &Shape<R>,
    order: &Order<R>,
    dists: &[Dist<R>],
)
    requires { IsLegal order.now (distances_of R dists.now) }
    ensures { TestedBehindInLegalOrder S V F R order.now shape.now (distances_of R dists.now) }
{
    shape.known();
    order.known();
}

/// Through a temporary the test may come between the two loops; besides that, the temporary then has the values.
pub fn test_between_loops<T, S, V, F>()
    ensures { TestedBetween T S V F }
{}

/// A mark for each element that is stored into, and one more that tells of an element marked again, tell behind all stores
/// whether one of the elements stands twice.
pub fn marks_tell<T, S, V, F>()
    ensures { MarksTell T S V F }
{}
