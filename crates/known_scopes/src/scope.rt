//! A scope of a source.

use f95_tree::{Section, Statement, Subprogram};
use names_types::Offer;
use scope_entries::Place;
use scope_names::Meanings;

/// A scope: the modules that end above it, the nearest last, what the names of its host mean, and its own parts.
#[derive(Clone, Copy)]
pub struct Scope<'a> {
    pub above: &'a [Offer],
    pub host: &'a Meanings,
    pub place: Place<'a>,
    pub section: &'a Section,
    pub body: &'a [Statement],
    pub procedures: &'a [Subprogram],
}
