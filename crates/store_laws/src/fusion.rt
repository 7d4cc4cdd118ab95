//! Nests over one walk, one after the other, that are one nest. What a group of nests is stands in `specs/Fusion.antt`, and
//! what the nests of a statement are in `specs/Bodies.antt`.

ghost use Rattle.loop_order.specs.Legal.{IsLegal, distances_of, turned};
ghost use Rattle.store_laws.specs.Bodies.{DirectIsRun, DeferredIsTwoRuns, ThroughIsTwoRuns, BodyIsQuiet, BodyKeepsSound};
ghost use Rattle.store_laws.specs.Bodies.{BodiesPass};
ghost use Rattle.store_laws.specs.Fusion.{FusedByDistances, FusedByAccesses, FusableByAccesses, GroupIsQuiet, GroupKeepsSound};
ghost use Rattle.store_laws.specs.Fusion.{GroupLetsPass, GroupPasses, GroupIsOneLoop, GroupIsOneNest};

use rank_shape::{Dist, Order, Shape};

/// Fusion by distances: two nests over one walk, the second after the first, are the one nest with both bodies, where the
/// first never stops and each distance from the first to the second has zeros alone, or its first entry that isn't a known 0
/// is known, positive in a forward loop and negative in a reversed one. The distances are those of turns that may not change
/// places (`by_turns`), or of each pair of accesses to one variable, one of them a store (`by_accesses`).
pub fn nests_made_one<S, F, const R: usize>(shape: &Shape<R>, order: &Order<R>, dists: &[Dist<R>])
    requires { IsLegal (turned order.now) (distances_of R dists.now) }
    ensures by_turns { FusedByDistances S F order.now shape.now (distances_of R dists.now) }
    ensures by_accesses { FusedByAccesses S F order.now shape.now (distances_of R dists.now) }
{
    shape.known();
    order.known();
}

/// Where two bodies touch each other by their accesses alone, it suffices to measure each pair of accesses to one variable,
/// one of them a store. So it is with each two of a group.
pub fn fusable_by_accesses<S, F>()
    ensures { FusableByAccesses S F }
{}

/// A group is a nest: the body made of two is quiet where both are, lets pass what both let pass, and passes what both pass.
pub fn group_is_nest<T, S, F>()
    ensures quiet { GroupIsQuiet T S F }
    ensures sound { GroupKeepsSound T S F }
    ensures lets_pass { GroupLetsPass T S F }
    ensures passes { GroupPasses T S F }
{}

/// Any number of loops over the same turns are one, where of each two the first is quiet and each turn of the second passes
/// the later turns of the first.
pub fn group_made_one<T, S, F>()
    ensures { GroupIsOneLoop T S F }
{}

/// Any number of nests over one walk are one, where each two of them are by their distances.
pub fn nests_of_group_made_one<S, F, const R: usize>(
    shape: &Shape<R>,
    order: &Order<R>,
    dists: &[Dist<R>],
)
    requires { IsLegal (turned order.now) (distances_of R dists.now) }
    ensures { GroupIsOneNest S F order.now shape.now (distances_of R dists.now) }
{
    shape.known();
    order.known();
}

/// The forms of a statement are runs of bodies: stores at once are one loop, stores after all evaluations are two, and so
/// are stores through a temporary.
pub fn statement_is_runs<T, S, V, F>()
    ensures direct { DirectIsRun T S V F }
    ensures deferred { DeferredIsTwoRuns T S V F }
    ensures through { ThroughIsTwoRuns T S V F }
{}

/// A body that stores at once is quiet where its evaluation never stops, and passes that of another statement where neither
/// looks at what the other stores.
pub fn statement_body<T, S, V, W, F>()
    ensures quiet { BodyIsQuiet T S V F }
    ensures sound { BodyKeepsSound T S V F }
    ensures passes { BodiesPass T S V W F }
{}
