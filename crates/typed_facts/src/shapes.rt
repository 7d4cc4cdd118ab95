//! Kinds and ranks, and which shapes conform: a scalar conforms with all.
ghost use Rattle.std.specs.Prelude.{◌≡◌, ◌∷◌, IfOk};
ghost use Rattle.well_typed.specs.Shapes as spec;

use a95_base::Kind;
use constant_operators::is_kind;
use f95_unit::Facts;
use sqlite_items::Items;
use std::alloc::{AllocError, Global};

/// An extent, where it is known.
pub type Extent = Option<u64>;

pub fn rank(f: &Facts) -> usize
    ensures { result ≡ spec.rank f.now }
{
    f.extents.len()
}

pub fn is_of(kind: Kind, f: &Facts) -> bool
    ensures { result ≡ spec.is_of kind f.now }
{
    is_kind(kind, f.kind)
}

pub fn is_scalar(f: &Facts) -> bool
    ensures { result ≡ spec.is_scalar f.now }
{
    rank(f) == 0
}

pub fn is_array(f: &Facts) -> bool
    ensures { result ≡ spec.is_array f.now }
{
    0 < rank(f)
}

pub fn is_scalar_of(kind: Kind, f: &Facts) -> bool
    ensures { result ≡ spec.is_scalar_of kind f.now }
{
    is_of(kind, f) && is_scalar(f)
}

pub fn is_array_of(kind: Kind, f: &Facts) -> bool
    ensures { result ≡ spec.is_array_of kind f.now }
{
    is_of(kind, f) && is_array(f)
}

pub fn is_vector_of(kind: Kind, f: &Facts) -> bool
    ensures { result ≡ spec.is_vector_of kind f.now }
{
    is_of(kind, f) && rank(f) == 1
}

/// One is a scalar, or both have one rank.
pub fn ranks_fit(ms: &[Extent], ns: &[Extent]) -> bool
    ensures { result ≡ spec.ranks_fit ms.now ns.now }
{
    ms.len() == 0 || ns.len() == 0 || ms.len() == ns.len()
}

/// Both are known, and not the same.
pub fn are_other(m: Extent, n: Extent) -> bool
    ensures { result ≡ spec.are_other m n }
{
    let Some(m) = m else {
        return false;
    };
    let Some(n) = n else {
        return false;
    };
    m != n
}

fn known_of(m: Extent, n: Extent) -> Extent
    ensures { result ≡ spec.known_of m n }
{
    match m {
        None => n,
        Some(m) => Some(m),
    }
}

/// Known extents differ in some dimension.
#[tactic(auto, using(crate::proofs::Joints::differ_from_nothing))]
pub fn differ(ms: &[Extent], ns: &[Extent]) -> bool
    ensures { result ≡ spec.differ ms.now ns.now }
{
    let mut rest = ns;
    for m in ms {
        let Some((n, more)) = rest.split_first() else {
            return false;
        };
        if are_other(*m, *n) {
            return true;
        }
        rest = more;
    }
    false
}

/// The first extent of what has both shapes, and what is left of the second one.
#[tactic(auto, using(crate::proofs::Joints::joint_with_nothing))]
fn first_joint(m: Extent, ns: &[Extent]) -> (Extent, &[Extent])
    ensures { (ms : spec.Extents) → spec.joint (m ∷ ms) ns.now ≡ result.0 ∷ spec.joint ms result.1.now }
{
    match ns.split_first() {
        None => (m, ns),
        Some((n, more)) => (known_of(m, *n), more),
    }
}

/// The shape of what has both shapes.
pub fn joint(alloc: Global, ms: &[Extent], ns: &[Extent]) -> Result<Items<Extent>, AllocError>
    ensures { IfOk result (λ made. made ≡ spec.joint ms.now ns.now) }
{
    let mut made = Items::new(alloc);
    let mut rest = ns;
    for m in ms {
        let (extent, more) = first_joint(*m, rest);
        made.push(extent)?;
        rest = more;
    }
    let behind = Items::from_slice(alloc, rest)?;
    made.append(behind)?;
    Ok(made)
}

fn greatest_rank(shapes: &[Items<Extent>]) -> usize
    ensures { result ≡ spec.greatest_rank shapes.now }
{
    let mut greatest = 0;
    for ms in shapes {
        if greatest < ms.len() {
            greatest = ms.len();
        }
    }
    greatest
}

fn all_have_rank(rank: usize, shapes: &[Items<Extent>]) -> bool
    ensures { result ≡ spec.all_have_rank rank shapes.now }
{
    for ms in shapes {
        if ms.len() != 0 && ms.len() != rank {
            return false;
        }
    }
    true
}

/// All of them are scalars, or arrays of one rank.
pub fn all_ranks_fit(shapes: &[Items<Extent>]) -> bool
    ensures { result ≡ spec.all_ranks_fit shapes.now }
{
    all_have_rank(greatest_rank(shapes), shapes)
}

/// The shape of what has all of them.
pub fn joint_of(alloc: Global, shapes: &[Items<Extent>]) -> Result<Items<Extent>, AllocError>
    ensures { IfOk result (λ made. made ≡ spec.joint_of shapes.now) }
{
    let mut made = Items::new(alloc);
    for ms in shapes {
        made = joint(alloc, made.as_slice(), ms.as_slice())?;
    }
    Ok(made)
}

/// Known extents of two of them differ.
pub fn some_differ(alloc: Global, shapes: &[Items<Extent>]) -> Result<bool, AllocError>
    ensures { IfOk result (λ differ. differ ≡ spec.some_differ shapes.now) }
{
    let mut before = Items::new(alloc);
    for ms in shapes {
        if differ(before.as_slice(), ms.as_slice()) {
            return Ok(true);
        }
        before = joint(alloc, before.as_slice(), ms.as_slice())?;
    }
    Ok(false)
}
