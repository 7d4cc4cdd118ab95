//! The source language, as the rest of this crate knows it: its reader and its typed unit. What a unit means stands in
//! `specs/Source.antt`.

pub use f95_source::{Refusal, Unit, breaks_nothing, read};
