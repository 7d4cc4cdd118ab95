//! Laws of reordered and of fused stores: below all lowerings, each stated once for any turns, states and values, so that
//! array assignment, WHERE and FORALL are instances of them. What a statement that stores in each of its turns means stands
//! in `specs/Store.antt`, its loops in `specs/Loops.antt`, and legal orders of loops in `specs/Legal.antt`; which nests are one
//! in `specs/Fusion.antt` and `specs/Bodies.antt`, the test for an element stored into twice in `specs/ManyOne.antt`, and masks
//! in `specs/Masked.antt`.
//!
//! Each function is a law: it does nothing, and its contract is the theorem. Which states are sound, and which values a
//! turn may store, are tests that the caller picks; where nothing is to be said, they are always true. The lemmas in
//! `proofs/` say the same for facts in place of tests.
#![tactic(auto)]

ghost use Rattle.std.specs.Prelude.{◌≡◌, ℕ, List, Bool, IsTrue, Result};
ghost use Rattle.a95_base.specs.Lists.{Every, Pairwise, Permuted};
ghost use Rattle.rank_shape.specs.Order.{element_order_of};
ghost use Rattle.rank_shape.specs.Walk.{tour};
ghost use Rattle.loop_order.specs.Legal.{IsLegal, distances_of};
ghost use Rattle.store_laws.specs.Legal.{IsTold, KeepsPlaces, IsFree};
ghost use Rattle.store_laws.specs.Loops.{run_each, nested, both, start_of, IsQuiet, KeepsSound, Passes};
ghost use Rattle.store_laws.specs.Store.{Statement, and_then, direct, values, store_all, deferred, Keeps, Ignores, IsStill};
ghost use Rattle.store_laws.specs.Store.{Commutes, StopsAlike, Temporary, filling, through, IsKeptApart, KeepsOther};

use rank_shape::{Dist, Order, Shape};

mod fusion;
mod many_one;
mod mask;

pub use fusion::{
    fusable_by_accesses, group_is_nest, group_made_one, nests_made_one, nests_of_group_made_one,
    statement_body, statement_is_runs,
};
pub use many_one::{
    marks_tell, test_behind_in_legal_order, test_behind_stores, test_between_loops,
};
pub use mask::mask_in_nest;

/// Where no later turn looks at what an earlier one stored, a store at once is a store after all evaluations, ends that come
/// early included.
pub fn store_at_once<T, S, V, F>()
    ensures { (statement : Statement T S V F) (sound : S → Bool) (may : T → V → Bool) (turns : List T) (s : S) →
        Every (Keeps statement (λ s. IsTrue (sound s)) (λ t v. IsTrue (may t v))) turns →
        Pairwise (Ignores statement (λ s. IsTrue (sound s)) (λ t v. IsTrue (may t v))) turns →
        IsTrue (sound s) →
        direct statement turns s ≡ deferred statement turns s }
{}

/// Where evaluations leave the state alone, stores may change places and any two stops are alike, a store after all
/// evaluations does the same in any order of the turns.
pub fn store_in_any_order<T, S, V, F>()
    ensures { (statement : Statement T S V F) (sound : S → Bool) (may : T → V → Bool) (turns others : List T) (s : S) →
        Permuted turns others →
        Every (Keeps statement (λ s. IsTrue (sound s)) (λ t v. IsTrue (may t v))) turns →
        Every (IsStill statement (λ s. IsTrue (sound s))) turns →
        Pairwise (Commutes statement (λ s. IsTrue (sound s)) (λ t v. IsTrue (may t v))) turns →
        Pairwise (StopsAlike statement s) turns →
        IsTrue (sound s) →
        deferred statement turns s ≡ deferred statement others s }
{}

/// In an order of the loops that is legal for the distances of its reads, a statement may store at once.
pub fn store_at_once_in_legal_order<S, V, F, const R: usize>(
    shape: &Shape<R>,
    order: &Order<R>,
    dists: &[Dist<R>],
)
    requires { IsLegal order.now (distances_of R dists.now) }
    ensures { (statement : Statement (List ℕ) S V F) (sound : S → Bool) (may : List ℕ → V → Bool) (s : S) →
        IsTold statement (λ s. IsTrue (sound s)) (λ t v. IsTrue (may t v)) shape.now (distances_of R dists.now) →
        KeepsPlaces statement (λ s. IsTrue (sound s)) (λ t v. IsTrue (may t v)) shape.now →
        IsTrue (sound s) →
        direct statement (tour order.now shape.now) s ≡ deferred statement (tour order.now shape.now) s }
{
    shape.known();
    order.known();
}

/// A free statement that stores at once in a legal order of the loops does what the statement means: all evaluations in
/// array element order, and then all stores.
pub fn free_store_in_legal_order<S, V, F, const R: usize>(
    shape: &Shape<R>,
    order: &Order<R>,
    dists: &[Dist<R>],
)
    requires { IsLegal order.now (distances_of R dists.now) }
    ensures { (statement : Statement (List ℕ) S V F) (sound : S → Bool) (may : List ℕ → V → Bool) (s : S) →
        IsTold statement (λ s. IsTrue (sound s)) (λ t v. IsTrue (may t v)) shape.now (distances_of R dists.now) →
        KeepsPlaces statement (λ s. IsTrue (sound s)) (λ t v. IsTrue (may t v)) shape.now →
        IsFree statement (λ s. IsTrue (sound s)) (λ t v. IsTrue (may t v)) shape.now s →
        IsTrue (sound s) →
        direct statement (tour order.now shape.now) s ≡ deferred statement (tour (element_order_of R) shape.now) s }
{
    shape.known();
    order.known();
}

/// Nested loops, each of which ends early where its body does, run exactly the turns of the walk.
pub fn nested_loops_walk<S, F, const R: usize>(shape: &Shape<R>, order: &Order<R>)
    ensures { (body : List ℕ → S → Result S F) (s : S) →
        nested body order.now shape.now (start_of shape.now) s ≡ run_each body (tour order.now shape.now) s }
{}

/// A step that passes each turn of a loop which never stops may come before the loop in place of after it.
pub fn step_before_loop<T, S, F>()
    ensures { (step : S → Result S F) (body : T → S → Result S F) (sound : S → Bool) (turns : List T) (s : S) →
        Every (IsQuiet body (λ s. IsTrue (sound s))) turns →
        Every (Passes step body (λ s. IsTrue (sound s))) turns →
        IsTrue (sound s) →
        and_then (step s) (run_each body turns) ≡ and_then (run_each body turns s) step }
{}

/// Two loops over the same turns are one, where the first never stops and each turn of the second passes the later turns of
/// the first.
pub fn loops_made_one<T, S, F>()
    ensures { (first second : T → S → Result S F) (sound : S → Bool) (turns : List T) (s : S) →
        Every (IsQuiet first (λ s. IsTrue (sound s))) turns →
        Every (λ t. KeepsSound (second t) (λ s. IsTrue (sound s))) turns →
        Pairwise (λ t later. Passes (second t) first (λ s. IsTrue (sound s)) later) turns →
        IsTrue (sound s) →
        and_then (run_each first turns s) (run_each second turns) ≡ run_each (both first second) turns s }
{}

/// Two loops, of which the first keeps each value in a temporary and the second stores from it, do what a store after all
/// evaluations does; besides that, the temporary then has the values.
pub fn store_through_temporary<T, S, V, F>()
    ensures { (statement : Statement T S V F) (temporary : Temporary T S V) (sound : S → Bool) (may : T → V → Bool) (turns : List T)
        (s : S) →
        IsKeptApart statement temporary (λ s. IsTrue (sound s)) (λ t v. IsTrue (may t v)) →
        Every (Keeps statement (λ s. IsTrue (sound s)) (λ t v. IsTrue (may t v))) turns →
        Every (Keeps (filling statement temporary) (λ s. IsTrue (sound s)) (λ t v. IsTrue (may t v))) turns →
        Pairwise (Ignores (filling statement temporary) (λ s. IsTrue (sound s)) (λ t v. IsTrue (may t v))) turns →
        Pairwise (KeepsOther temporary (λ s. IsTrue (sound s)) (λ t v. IsTrue (may t v))) turns →
        IsTrue (sound s) →
        through statement temporary turns s
        ≡ and_then (values statement turns s) (λ es. Ok (store_all (filling statement temporary) turns es.value (store_all statement turns es.value es.after))) }
{}
