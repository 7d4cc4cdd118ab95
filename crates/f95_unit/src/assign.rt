//! Assignments: by themselves, under masks (WHERE), and for indices (FORALL).

use crate::expr::{Bound, Designator, Expr};
use crate::facts::Facts;
use a95_base::Line;
use sqlite_items::Items;

/// What a statement stores into.
#[derive(Drop)]
pub struct Target {
    pub facts: Facts,
    pub designator: Designator,
}

/// `target = value`
#[derive(Drop)]
pub struct Assign {
    pub line: Line,
    pub target: Target,
    pub value: Expr,
}

/// `WHERE ( mask )`, its body, and each ELSEWHERE. The WHERE statement is one with one assignment and no ELSEWHERE.
#[cycle(masked)]
#[derive(Drop)]
pub struct Where {
    pub line: Line,
    pub mask: Expr,
    pub body: Items<Masked>,
    pub others: Items<Elsewhere>,
}

/// ELSEWHERE, with a mask or, as the last one, without.
#[cycle(masked)]
#[derive(Drop)]
pub struct Elsewhere {
    pub line: Line,
    pub mask: Option<Expr>,
    pub body: Items<Masked>,
}

#[cycle(masked)]
#[derive(Drop)]
pub enum Masked {
    Assign(Assign),
    Where(Where),
}

/// `FORALL ( name = first : last : stride , .. , mask )` with its assignments. The FORALL statement has one.
#[derive(Drop)]
pub struct Forall {
    pub line: Line,
    pub triplets: Items<Triplet>,
    pub mask: Option<Expr>,
    pub body: Items<Assign>,
}

#[derive(Drop)]
pub struct Triplet {
    pub first: Expr,
    pub last: Expr,
    pub stride: Bound,
}
