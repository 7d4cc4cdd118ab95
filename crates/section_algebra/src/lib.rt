//! Sections of arrays, for every rank from 1 to 7 by one contract each, and linear forms. Which places a section names stands in
//! `specs/Section.antt`, and what a linear form is in `specs/Form.antt`.
#![tactic(auto)]

mod access;
mod ascent;
mod atom;
mod linear_form;
mod section;
mod triplet;

pub use access::{Access, DimAccess};
pub use atom::Atom;
pub use linear_form::{LinearForm, same_forms};
pub use section::Section;
pub use triplet::triplet_count;
