//! A declaration of one name. It refers to where it is written, or to what a module has.

use a95_base::{Line, SharedBytes};
use f95_tree::{Declaration, Entity, TypeSpec};
use names_types::Share;

/// How a statement declares a name.
#[derive(Clone, Copy)]
pub enum Form<'a> {
    /// By USE.
    Brings(&'a Share),
    /// In a declaration.
    Declares(&'a (Line, Declaration), &'a Entity),
    /// By the type that stands before FUNCTION.
    Types(&'a TypeSpec),
    /// By SUBROUTINE or FUNCTION behind CONTAINS.
    Begins,
}

#[derive(Clone, Copy)]
pub struct Entry<'a> {
    pub line: u32,
    pub name: &'a SharedBytes,
    pub form: Form<'a>,
}
