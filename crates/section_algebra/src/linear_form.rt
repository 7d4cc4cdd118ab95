//! Linear forms: a constant and a sum of atoms with factors, modulo 2^32.
ghost use Rattle.std.specs.Prelude.{◌≡◌, ◌≢◌, ◌<◌, ◌≤◌, ℕ, ℤ, pos, ◌+ℤ◌, ◌-ℤ◌, ◌*ℤ◌, [], ◌∷◌, length, drop, IfOk, OnOk, MatchOption};
ghost use Rattle.a95_base.specs.Integer.{wrapped, difference_of, product_of};
ghost use Rattle.a95_base.specs.IntegerLaws.{IsInteger};
ghost use Rattle.a95_base.specs.Lists.{Every};
ghost use Rattle.section_algebra.specs.Form.{factor_in, sum_in, value_of, IsSum, IsForm};
ghost use Rattle.section_algebra.specs.Merging.{Grows, IsLeast, IsLeastOf, Takes};

use crate::atom::Atom;
use a95_base::Memory;
use std::alloc::Global;
use std::marker::Model;

/// A constant and atoms with factors: the atoms rise, each stands once, and no factor is 0. Contracts see the form.
#[derive(Drop)]
pub struct LinearForm {
    constant: i32,
    terms: Vec<(Atom, i32)>,
}

impl Model for LinearForm {
    ghost use Rattle.section_algebra.specs.Form.{Form, IsForm};

    ghost Value = { Form };

    ghost view = { λ f. record { constant = f.constant; terms = f.terms.items } };

    ghost invariant = { λ f. IsForm (record { constant = f.constant; terms = f.terms.items }) };
}

impl LinearForm {
    /// The form that is this number. Takes no memory.
    pub fn constant(alloc: Global, value: i32) -> LinearForm
        ensures { result ≡ record { constant = value; terms = [] } }
    {
        LinearForm {
            constant: value,
            terms: Vec::new(alloc),
        }
    }

    /// The form that is this atom.
    pub fn of_atom(alloc: Global, atom: Atom) -> Result<LinearForm, Memory>
        ensures { IfOk result (λ form. form ≡ record { constant = pos 0; terms = (atom, pos 1) ∷ [] }) }
    {
        let mut terms = Vec::new(alloc);
        terms.push((atom, 1))?;
        Ok(LinearForm { constant: 0, terms })
    }

    pub fn constant_part(&self) -> i32
        ensures { result ≡ self.now.constant }
    {
        self.constant
    }

    /// The atoms in ascending order, with their factors.
    pub fn terms(&self) -> &[(Atom, i32)]
        ensures { result.now ≡ self.now.terms }
    {
        self.terms.as_slice()
    }

    /// What every form keeps, for callers that see its value alone.
    pub fn known(&self)
        ensures { IsForm self.now }
    {
        let _ = &self.terms;
    }

    /// `a` less `b`: the constant and the factor of each atom are the differences, modulo 2^32.
    pub fn difference(alloc: Global, a: &LinearForm, b: &LinearForm) -> Result<LinearForm, Memory>
        ensures constant { IfOk result (λ form. form.constant ≡ difference_of a.now.constant b.now.constant) }
        ensures factors { IfOk result (λ form. (atom : ℕ) →
            factor_in form.terms atom ≡ difference_of (factor_in a.now.terms atom) (factor_in b.now.terms atom)) }
        ensures value { IfOk result (λ form. (values : ℕ → ℤ) →
            wrapped (value_of values form) ≡ wrapped (value_of values a.now -ℤ value_of values b.now)) }
    {
        let terms = terms_apart(alloc, &a.terms, &b.terms)?;
        Ok(LinearForm {
            constant: a.constant.wrapping_sub(b.constant),
            terms,
        })
    }

    /// `factor` times `a`: so are the constant and the factor of each atom, modulo 2^32.
    pub fn scaled(alloc: Global, a: &LinearForm, factor: i32) -> Result<LinearForm, Memory>
        ensures constant { IfOk result (λ form. form.constant ≡ product_of factor a.now.constant) }
        ensures factors { IfOk result (λ form. (atom : ℕ) →
            factor_in form.terms atom ≡ product_of factor (factor_in a.now.terms atom)) }
        ensures value { IfOk result (λ form. (values : ℕ → ℤ) →
            wrapped (value_of values form) ≡ wrapped (factor *ℤ value_of values a.now)) }
    {
        let terms = terms_scaled(alloc, &a.terms, factor)?;
        Ok(LinearForm {
            constant: factor.wrapping_mul(a.constant),
            terms,
        })
    }
}

/// The law of forms: two with one constant, and one factor at each atom, are one form.
pub fn same_forms(a: &LinearForm, b: &LinearForm)
    requires constant { a.now.constant ≡ b.now.constant }
    requires factors { (atom : ℕ) → factor_in a.now.terms atom ≡ factor_in b.now.terms atom }
    ensures { a.now ≡ b.now }
{
    a.known();
    b.known();
}

// One sum less the other, merged by atom.
fn terms_apart(
    alloc: Global,
    a: &[(Atom, i32)],
    b: &[(Atom, i32)],
) -> Result<Vec<(Atom, i32)>, Memory>
    requires a { IsSum a.now }
    requires b { IsSum b.now }
    ensures sum { IfOk result (λ terms. IsSum terms.items) }
    ensures value { IfOk result (λ terms. (values : ℕ → ℤ) →
        wrapped (sum_in values terms.items) ≡ wrapped (sum_in values a.now -ℤ sum_in values b.now)) }
{
    let mut terms = Vec::new(alloc);
    let mut from_a = 0;
    let mut from_b = 0;
    while let Some(atom) = least_left(a, from_a, b, from_b) {
        let (next_a, plus) = take_term(a, from_a, atom);
        let (next_b, minus) = take_term(b, from_b, atom);
        put(&mut terms, atom, plus.wrapping_sub(minus))?;
        from_a = next_a;
        from_b = next_b;
    }
    Ok(terms)
}

fn terms_scaled(alloc: Global, a: &[(Atom, i32)], factor: i32) -> Result<Vec<(Atom, i32)>, Memory>
    requires { IsSum a.now }
    ensures sum { IfOk result (λ terms. IsSum terms.items) }
    ensures value { IfOk result (λ terms. (values : ℕ → ℤ) →
        wrapped (sum_in values terms.items) ≡ wrapped (factor *ℤ sum_in values a.now)) }
{
    let mut terms = Vec::new(alloc);
    for term in a {
        put(&mut terms, term.0, factor.wrapping_mul(term.1))?;
    }
    Ok(terms)
}

// Puts an atom behind lesser ones, where its factor isn't 0.
fn put(terms: &mut Vec<(Atom, i32)>, atom: Atom, factor: i32) -> Result<(), Memory>
    requires sum { IsSum terms.old.items }
    requires lesser { Every (λ term. term.0.0 < atom.0) terms.old.items }
    ensures { OnOk result (Grows terms.old.items atom.0 factor terms.new.items) }
{
    if factor == 0 {
        return Ok(());
    }
    terms.push((atom, factor))?;
    Ok(())
}

// The least atom of what is left of two sums.
fn least_left(a: &[(Atom, i32)], from_a: usize, b: &[(Atom, i32)], from_b: usize) -> Option<Atom>
    requires a { IsSum a.now }
    requires b { IsSum b.now }
    requires within_a { from_a ≤ length a.now }
    requires within_b { from_b ≤ length b.now }
    ensures { MatchOption result ((from_a ≡ length a.now) × (from_b ≡ length b.now))
        (λ atom. IsLeastOf (drop from_a a.now) (drop from_b b.now) atom.0) }
{
    if from_a == a.len() {
        if from_b == b.len() {
            return None;
        }
        return Some(b[from_b].0);
    }
    if from_b == b.len() {
        return Some(a[from_a].0);
    }
    let first = a[from_a].0;
    let other = b[from_b].0;
    if other.0 < first.0 {
        return Some(other);
    }
    Some(first)
}

// The term of the atom, which none that is left is less than: where the next one begins, and the factor, or 0.
fn take_term(terms: &[(Atom, i32)], from: usize, atom: Atom) -> (usize, i32)
    requires sum { IsSum terms.now }
    requires within { from ≤ length terms.now }
    requires least { IsLeast atom.0 (drop from terms.now) }
    ensures { Takes terms.now from atom.0 result.0 result.1 }
{
    if from == terms.len() {
        return (from, 0);
    }
    let (first, factor) = terms[from];
    if first.0 != atom.0 {
        return (from, 0);
    }
    (from + 1, factor)
}
