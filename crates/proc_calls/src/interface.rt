//! What a reference sees of a procedure.
ghost use Rattle.std.specs.Prelude.{◌≡◌, IfOk, map, replicate};
ghost use Rattle.f95_unit.specs.View.{bounds_of, entity_of, procedure_of};
ghost use Rattle.proc_calls.specs.Interfaces as spec;

use a95_base::Kind;
use f95_unit::{Bounds, DeclaredType, Entity, Intent, Length, Procedure, Role};
use sqlite_items::Items;
use std::alloc::{AllocError, Global};

/// A dummy: its kind, its length where that is a constant, its rank, and its INTENT.
#[derive(Clone, Copy)]
pub struct Dummy {
    pub kind: Kind,
    pub length: Option<u32>,
    pub rank: usize,
    pub intent: Intent,
}

/// Whether it is a function, PURE or ELEMENTAL, ELEMENTAL, and its dummies, each at its place.
#[derive(Drop)]
pub struct Interface {
    pub function: bool,
    pub pure: bool,
    pub elemental: bool,
    pub dummies: Items<Option<Dummy>>,
}

pub fn kind_of(of: DeclaredType) -> Kind
    ensures { result ≡ spec.kind_of of }
{
    match of {
        DeclaredType::Integer => Kind::Int,
        DeclaredType::Logical => Kind::Log,
        DeclaredType::Character(_) => Kind::Text,
    }
}

pub fn known_length(of: DeclaredType) -> Option<u32>
    ensures { result ≡ spec.known_length of }
{
    match of {
        DeclaredType::Character(Length::Fixed(n)) => Some(n),
        DeclaredType::Character(Length::Assumed) => None,
        DeclaredType::Integer => None,
        DeclaredType::Logical => None,
    }
}

pub fn rank_of(bounds: &Bounds) -> usize
    ensures { result ≡ spec.rank_of (bounds_of bounds.now) }
{
    match bounds {
        Bounds::None => 0,
        Bounds::Explicit(spans) => spans.len(),
        Bounds::Assumed(lowers) => lowers.len(),
        Bounds::Deferred(rank) => usize::from(*rank),
    }
}

pub fn is_dummy(role: Role) -> bool
    ensures { result ≡ spec.is_dummy role }
{
    match role {
        Role::Own => false,
        Role::Dummy(_, _) => true,
    }
}

fn dummy_count(entities: &[Entity]) -> usize
    ensures { result ≡ spec.dummy_count (map entity_of entities.now) }
{
    let mut count = 0;
    for e in entities {
        if is_dummy(e.role) {
            count += 1;
        }
    }
    count
}

fn dummy_of(of: DeclaredType, bounds: &Bounds, intent: Intent) -> Dummy
    ensures { result ≡ spec.dummy_of of (bounds_of bounds.now) intent }
{
    Dummy {
        kind: kind_of(of),
        length: known_length(of),
        rank: rank_of(bounds),
        intent,
    }
}

fn put(dummies: &mut Items<Option<Dummy>>, e: &Entity)
    ensures { dummies.new ≡ spec.placed e.now.role e.now.of (bounds_of e.now.bounds) dummies.old }
{
    if let Role::Dummy(place, intent) = e.role {
        let place = place as usize;
        if place < dummies.len() {
            dummies.set(place, Some(dummy_of(e.of, &e.bounds, intent)));
        }
    }
}

fn empty_places(alloc: Global, count: usize) -> Result<Items<Option<Dummy>>, AllocError>
    ensures { IfOk result (λ places. places ≡ replicate count None) }
{
    let mut places = Items::new(alloc);
    for _place in 0..count {
        places.push(None)?;
    }
    Ok(places)
}

fn dummies_of(alloc: Global, entities: &[Entity]) -> Result<Items<Option<Dummy>>, AllocError>
    ensures { IfOk result (λ dummies. dummies ≡ spec.dummies_of (map entity_of entities.now)) }
{
    let mut dummies = empty_places(alloc, dummy_count(entities))?;
    for e in entities {
        put(&mut dummies, e);
    }
    Ok(dummies)
}

pub fn interface_of(alloc: Global, p: &Procedure) -> Result<Interface, AllocError>
    ensures { IfOk result (λ i. i ≡ spec.interface_of (procedure_of p.now)) }
{
    let dummies = dummies_of(alloc, p.entities.as_slice())?;
    Ok(Interface {
        function: p.result.is_some(),
        pure: p.pure || p.elemental,
        elemental: p.elemental,
        dummies,
    })
}

/// The interfaces of procedures.
pub fn interfaces_of(
    alloc: Global,
    procedures: &[Procedure],
) -> Result<Items<Interface>, AllocError>
    ensures { IfOk result (λ is. is ≡ map spec.interface_of (map procedure_of procedures.now)) }
{
    let mut interfaces = Items::new(alloc);
    for p in procedures {
        interfaces.push(interface_of(alloc, p)?)?;
    }
    Ok(interfaces)
}
