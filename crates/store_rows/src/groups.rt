//! Nests over one walk. Their cells and numbers stand in `specs/Pieces.antt`.

ghost use Rattle.std.specs.Prelude.{◌≡◌, List, [], ◌∷◌, Ok};
ghost use Rattle.a95_base.specs.Lists.{Pairwise};
ghost use Rattle.rank_shape.specs.Walk.{tour};
ghost use Rattle.loop_order.specs.Legal.{IsLegal, turned};
ghost use Rattle.store_laws.specs.Bodies.{at_once, from_kept};
ghost use Rattle.store_laws.specs.Fusion.{AreMeasured, nest_each, all_of};
ghost use Rattle.store_laws.specs.Loops.{run_each, nested, both, start_of};
ghost use Rattle.store_laws.specs.Store.{and_then, direct, deferred, filling, through};
ghost use Rattle.store_rows.specs.Pieces.{Fusable, TurnsApart, accesses_of, added, backwards, body_of, cells, copied, distances};
ghost use Rattle.store_rows.specs.Pieces.{extents, forwards, kept, moved, shifted};

/// `a(2:4) = b(1:3) + 10` and `b(1:3) = a(1:3)`: the first stores `a` one turn before the second reads it, so the two are
/// one loop that runs forwards. Backwards the second would read `a` too soon.
#[tactic(auto, using(crate::proofs::PieceLaws::shifted_copied, crate::proofs::PieceLaws::shifted_copied_fuse, crate::proofs::PieceLaws::last_and_first))]
pub fn two_nests()
    ensures measured { AreMeasured (accesses_of shifted) (accesses_of copied) extents distances }
    ensures turns_apart { TurnsApart shifted copied (0 ∷ []) (2 ∷ []) }
    ensures fusable { Fusable shifted copied }
    ensures legal { IsLegal (turned forwards) distances }
    ensures apart { and_then (nested (body_of shifted) forwards extents (start_of extents) cells)
        (nested (body_of copied) forwards extents (start_of extents))
        ≡ Ok (1 ∷ 15 ∷ 16 ∷ 17 ∷ 1 ∷ 15 ∷ 16 ∷ 0 ∷ 0 ∷ 0 ∷ []) }
    ensures fused { nested (both (body_of shifted) (body_of copied)) forwards extents (start_of extents) cells
        ≡ Ok (1 ∷ 15 ∷ 16 ∷ 17 ∷ 1 ∷ 15 ∷ 16 ∷ 0 ∷ 0 ∷ 0 ∷ []) }
    ensures not_backwards { IsLegal (turned backwards) distances → ⊥ }
    ensures too_soon { nested (both (body_of shifted) (body_of copied)) backwards extents (start_of extents) cells
        ≡ Ok (1 ∷ 15 ∷ 16 ∷ 17 ∷ 1 ∷ 2 ∷ 3 ∷ 0 ∷ 0 ∷ 0 ∷ []) }
{}

/// The same with `c(1:3) = b(1:3) + a(2:4)` behind them: three nests are one.
#[tactic(auto, using(crate::proofs::PieceLaws::three_fuse))]
pub fn three_nests()
    ensures fusable { Pairwise Fusable (shifted ∷ copied ∷ added ∷ []) }
    ensures apart { nest_each (body_of shifted ∷ body_of copied ∷ body_of added ∷ []) forwards extents cells
        ≡ Ok (1 ∷ 15 ∷ 16 ∷ 17 ∷ 1 ∷ 15 ∷ 16 ∷ 16 ∷ 31 ∷ 33 ∷ []) }
    ensures fused { nested (all_of (body_of shifted ∷ body_of copied ∷ body_of added ∷ [])) forwards extents (start_of extents) cells
        ≡ Ok (1 ∷ 15 ∷ 16 ∷ 17 ∷ 1 ∷ 15 ∷ 16 ∷ 16 ∷ 31 ∷ 33 ∷ []) }
{}

/// The forms of `a(2:4) = a(1:3) + 10`: only stores after all evaluations, and those through a temporary, do what it means.
pub fn forms()
    ensures deferred { deferred moved (tour forwards extents) cells ≡ Ok (1 ∷ 11 ∷ 12 ∷ 13 ∷ 5 ∷ 6 ∷ 7 ∷ 0 ∷ 0 ∷ 0 ∷ []) }
    ensures through { through moved kept (tour forwards extents) cells ≡ Ok (1 ∷ 11 ∷ 12 ∷ 13 ∷ 11 ∷ 12 ∷ 13 ∷ 0 ∷ 0 ∷ 0 ∷ []) }
    ensures two_runs { and_then (run_each (at_once (filling moved kept)) (tour forwards extents) cells)
        (run_each (from_kept moved kept) (tour forwards extents))
        ≡ Ok (1 ∷ 11 ∷ 12 ∷ 13 ∷ 11 ∷ 12 ∷ 13 ∷ 0 ∷ 0 ∷ 0 ∷ []) }
    ensures direct { direct moved (tour forwards extents) cells ≡ Ok (1 ∷ 11 ∷ 21 ∷ 31 ∷ 5 ∷ 6 ∷ 7 ∷ 0 ∷ 0 ∷ 0 ∷ []) }
    ensures one_run { run_each (at_once moved) (tour forwards extents) cells ≡ Ok (1 ∷ 11 ∷ 21 ∷ 31 ∷ 5 ∷ 6 ∷ 7 ∷ 0 ∷ 0 ∷ 0 ∷ []) }
    ensures reversed { direct moved (tour backwards extents) cells ≡ Ok (1 ∷ 11 ∷ 12 ∷ 13 ∷ 5 ∷ 6 ∷ 7 ∷ 0 ∷ 0 ∷ 0 ∷ []) }
{}
