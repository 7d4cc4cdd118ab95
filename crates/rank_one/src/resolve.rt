//! Names of arrays become their places.
ghost use Rattle.std.specs.Prelude.{◌≡◌, ◌∷◌, [], map, IfOk};
ghost use Rattle.rank_one.specs.Conditions.{extent_of, names_in_factor, names_in_term, names_in_sum, names_in, is_conforming};
ghost use Rattle.rank_one.specs.Conditions.{is_declared};
ghost use Rattle.rank_one.specs.Placing.{placed_name, placed_factor, placed_term, placed_addend, placed_sum, placed_action};
ghost use Rattle.rank_one.specs.Resolving.{unseen, seen_with, see_all};

use crate::form::{NamedAction, NamedAddend, NamedFactor, NamedSum, NamedTerm};
use crate::name::Name;
use crate::symbols::Symbols;
use crate::unit::{Action, Addend, Factor, Sum, Term};
use sqlite_items::Items;
use std::alloc::{AllocError, Global};

/// What the names of a statement have shown so far.
#[derive(Clone, Copy)]
pub struct Seen {
    /// That of the first declared name.
    pub extent: Option<u32>,
    /// All declared names have it.
    pub conforming: bool,
    /// All names are declared.
    pub declared: bool,
}

impl Seen {
    pub fn new() -> Seen
        ensures { result ≡ unseen }
    {
        Seen {
            extent: None,
            conforming: true,
            declared: true,
        }
    }

    /// Goes on to a name, by its extent where it is declared.
    fn see(&mut self, extent: Option<u32>)
        ensures { self.new ≡ seen_with self.old extent }
    {
        match extent {
            None => self.declared = false,
            Some(extent) => {
                let first = self.extent.unwrap_or(extent);
                self.conforming = self.conforming && extent == first;
                self.extent = Some(first);
            }
        }
    }
}

/// A statement by places, and what its names have shown.
#[derive(Drop)]
pub struct Resolved {
    pub action: Action,
    /// Its declared names have equal extents, if it is an assignment.
    pub conforming: bool,
    /// All its names are declared.
    pub declared: bool,
}

/// Names become places. A name that isn't declared has the place 0.
pub fn action(
    alloc: Global,
    symbols: &Symbols<'_>,
    action: &NamedAction<'_>,
) -> Result<Resolved, AllocError>
    ensures action { IfOk result (λ r. r.action ≡ placed_action symbols.now action.now) }
    ensures conforming { IfOk result (λ r. r.conforming ≡ is_conforming symbols.now action.now) }
    ensures declared { IfOk result (λ r. r.declared ≡ is_declared symbols.now action.now) }
{
    match action {
        NamedAction::Assign { target, value } => assignment(alloc, symbols, target, value),
        NamedAction::Print { first, rest } => print(alloc, symbols, first, rest.as_slice()),
    }
}

fn assignment(
    alloc: Global,
    symbols: &Symbols<'_>,
    target: &Name<'_>,
    value: &NamedSum<'_>,
) -> Result<Resolved, AllocError>
    ensures action { IfOk result (λ r. r.action ≡ placed_action symbols.now (NamedAction.Assign target.now value.now)) }
    ensures conforming { IfOk result (λ r. r.conforming ≡ is_conforming symbols.now (NamedAction.Assign target.now value.now)) }
    ensures declared { IfOk result (λ r. r.declared ≡ is_declared symbols.now (NamedAction.Assign target.now value.now)) }
{
    let mut seen = Seen::new();
    let target = name(symbols, &mut seen, target);
    let value = sum(alloc, symbols, &mut seen, value)?;
    Ok(Resolved {
        action: Action::Assign { target, value },
        conforming: seen.conforming,
        declared: seen.declared,
    })
}

fn print(
    alloc: Global,
    symbols: &Symbols<'_>,
    first: &Name<'_>,
    rest: &[Name<'_>],
) -> Result<Resolved, AllocError>
    ensures action { IfOk result (λ r. r.action ≡ placed_action symbols.now (NamedAction.Print first.now rest.now)) }
    ensures conforming { IfOk result (λ r. r.conforming ≡ is_conforming symbols.now (NamedAction.Print first.now rest.now)) }
    ensures declared { IfOk result (λ r. r.declared ≡ is_declared symbols.now (NamedAction.Print first.now rest.now)) }
{
    let mut seen = Seen::new();
    let mut arrays = Items::new(alloc);
    arrays.push(name(symbols, &mut seen, first))?;
    for word in rest {
        arrays.push(name(symbols, &mut seen, word))?;
    }
    Ok(Resolved {
        action: Action::Print { arrays },
        conforming: true,
        declared: seen.declared,
    })
}

fn sum(
    alloc: Global,
    symbols: &Symbols<'_>,
    seen: &mut Seen,
    value: &NamedSum<'_>,
) -> Result<Sum, AllocError>
    ensures sum { IfOk result (λ s. s ≡ placed_sum symbols.now value.now) }
    ensures seen { IfOk result (λ _. seen.new ≡ see_all symbols.now seen.old (names_in_sum value.now)) }
{
    let first = term(alloc, symbols, seen, &value.first)?;
    let mut rest = Items::new(alloc);
    for addend in value.rest.as_slice() {
        rest.push(Addend {
            minus: addend.minus,
            term: term(alloc, symbols, seen, &addend.term)?,
        })?;
    }
    Ok(Sum { first, rest })
}

#[tactic(auto, using(crate::proofs::SeenLaws::see_append))]
fn term(
    alloc: Global,
    symbols: &Symbols<'_>,
    seen: &mut Seen,
    value: &NamedTerm<'_>,
) -> Result<Term, AllocError>
    ensures term { IfOk result (λ t. t ≡ placed_term symbols.now value.now) }
    ensures seen { IfOk result (λ _. seen.new ≡ see_all symbols.now seen.old (names_in_term value.now)) }
{
    let first = factor(symbols, seen, &value.first);
    let mut rest = Items::new(alloc);
    for named in value.rest.as_slice() {
        rest.push(factor(symbols, seen, named))?;
    }
    Ok(Term { first, rest })
}

fn factor(symbols: &Symbols<'_>, seen: &mut Seen, value: &NamedFactor<'_>) -> Factor
    ensures factor { result ≡ placed_factor symbols.now value.now }
    ensures seen { seen.new ≡ see_all symbols.now seen.old (names_in_factor value.now) }
{
    match value {
        NamedFactor::Number(number) => Factor::Number(*number),
        NamedFactor::Name(word) => Factor::Array(name(symbols, seen, word)),
    }
}

fn name(symbols: &Symbols<'_>, seen: &mut Seen, name: &Name<'_>) -> u32
    ensures place { result ≡ placed_name symbols.now name.now }
    ensures seen { seen.new ≡ seen_with seen.old (extent_of symbols.now name.now) }
{
    match symbols.find(name.as_slice()) {
        None => {
            seen.see(None);
            0
        }
        Some((place, extent)) => {
            seen.see(Some(extent));
            place
        }
    }
}
