//! The test for an element stored into twice, behind the stores. The statement stands in `specs/Scatter.antt`.

ghost use Rattle.std.specs.Prelude.{◌≡◌, [], ◌∷◌, Ok, Err};
ghost use Rattle.rank_shape.specs.Order.{element_order_of};
ghost use Rattle.rank_shape.specs.Walk.{tour};
ghost use Rattle.loop_order.specs.Legal.{IsLegal};
ghost use Rattle.store_laws.specs.ManyOne.{tested, tested_behind, tested_between};
ghost use Rattle.store_laws.specs.Store.{direct, through};
ghost use Rattle.store_rows.specs.Between as between;
ghost use Rattle.store_rows.specs.Between.{kept_aside, stored_later, wide};
ghost use Rattle.store_rows.specs.Pieces.{backwards, distances, extents, forwards};
ghost use Rattle.store_rows.specs.Scatter.{Premises, element_of, once, scattered, seen, start, twice};

/// `forall (i = 1:3) a(p(i)) = a(i) + 10`, where `p` gives the places 1, 2 and 3, counted from 0: a loop that runs backwards
/// may store at once, and the test behind it finds nothing. Forwards, stores at once would change what later turns read.
#[tactic(auto, using(crate::proofs::ScatterLaws::once_premises))]
pub fn one_one()
    ensures premises { Premises once }
    ensures legal { IsLegal backwards distances }
    ensures meant { seen (tested (scattered once) (element_of once) 5 (tour (element_order_of 1) extents) start)
        ≡ Ok (1 ∷ 11 ∷ 12 ∷ 13 ∷ []) }
    ensures behind { seen (tested_behind (scattered once) (λ s. s.again) 5 (tour backwards extents) start) ≡ Ok (1 ∷ 11 ∷ 12 ∷ 13 ∷ []) }
    ensures forwards { seen (direct (scattered once) (tour (element_order_of 1) extents) start) ≡ Ok (1 ∷ 11 ∷ 21 ∷ 31 ∷ []) }
{}

/// Where `p` gives the places 1, 2 and 2, both end with the fault. What the loop has stored by then depends on its direction, and
/// nobody sees it.
#[tactic(auto, using(crate::proofs::ScatterLaws::twice_premises))]
pub fn many_one()
    ensures premises { Premises twice }
    ensures meant { seen (tested (scattered twice) (element_of twice) 5 (tour (element_order_of 1) extents) start) ≡ Err 5 }
    ensures behind { seen (tested_behind (scattered twice) (λ s. s.again) 5 (tour backwards extents) start) ≡ Err 5 }
    ensures unseen { seen (direct (scattered twice) (tour backwards extents) start) ≡ Ok (1 ∷ 11 ∷ 12 ∷ 4 ∷ []) }
{}

/// The same by a temporary, with the test between the two loops: where an element stands twice, the second loop doesn't run.
#[tactic(auto, using(crate::proofs::BetweenLaws::once_between, crate::proofs::BetweenLaws::twice_between))]
pub fn between_loops()
    ensures once_premises { between.Premises once }
    ensures twice_premises { between.Premises twice }
    ensures once { seen (tested_between (stored_later once) (kept_aside once) (λ s. s.again) 5 (tour forwards extents) wide)
        ≡ Ok (1 ∷ 11 ∷ 12 ∷ 13 ∷ 11 ∷ 12 ∷ 13 ∷ []) }
    ensures twice { seen (tested_between (stored_later twice) (kept_aside twice) (λ s. s.again) 5 (tour forwards extents) wide) ≡ Err 5 }
    ensures untested { seen (through (stored_later twice) (kept_aside twice) (tour forwards extents) wide)
        ≡ Ok (1 ∷ 11 ∷ 13 ∷ 4 ∷ 11 ∷ 12 ∷ 13 ∷ []) }
{}
