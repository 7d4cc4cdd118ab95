//! What a statement is in a program unit. A form is taken apart here once, and nowhere else.

ghost use Rattle.std.specs.Prelude.{◌≡◌};
ghost use Rattle.f95_blocks.specs.Units.{unit_role, role_of};

use a95_base::{Line, SharedBytes};
use f95_tree::{Declaration, Ending, Form, Procedure, UnitForm};
use sqlite_items::{Boxed, Items};

/// What begins a unit.
#[derive(Drop)]
pub enum Beginning {
    Program(SharedBytes),
    Module(SharedBytes),
    Procedure(Procedure),
}

/// What stands before the statements of a unit.
#[derive(Drop)]
pub enum SectionForm {
    Use(SharedBytes, Option<Items<SharedBytes>>),
    ImplicitNone,
    Declaration(Declaration),
}

#[derive(Drop)]
pub enum Role {
    /// It begins a unit.
    Begins(Beginning),
    /// It stands before the statements.
    Section(SectionForm),
    Contains,
    /// It ends a unit.
    Ends(Ending),
    /// It stands among the statements.
    Within(Form),
}

fn unboxed(names: Option<Boxed<Items<SharedBytes>>>) -> Option<Items<SharedBytes>>
    ensures { result ≡ names }
{
    match names {
        None => None,
        Some(names) => Some(names.into_inner()),
    }
}

fn unit_role(line: Line, form: UnitForm) -> Role
    ensures { result ≡ unit_role line form }
{
    match form {
        UnitForm::Program(name) => Role::Begins(Beginning::Program(name)),
        UnitForm::Module(name) => Role::Begins(Beginning::Module(name)),
        UnitForm::Procedure(procedure) => Role::Begins(Beginning::Procedure(
            procedure.into_inner(),
        )),
        UnitForm::Use(name, only) => Role::Section(SectionForm::Use(name, unboxed(only))),
        UnitForm::ImplicitNone => Role::Section(SectionForm::ImplicitNone),
        UnitForm::Contains => Role::Contains,
        UnitForm::End => Role::Ends(Ending {
            line,
            word: None,
            name: None,
        }),
        UnitForm::EndUnit(word, name) => Role::Ends(Ending {
            line,
            word: Some(word),
            name,
        }),
    }
}

/// What a statement on this line is in a unit.
pub fn role_of(line: Line, form: Form) -> Role
    ensures { result ≡ role_of line form }
{
    match form {
        Form::Unit(form) => unit_role(line, form),
        Form::Declaration(declaration) => {
            Role::Section(SectionForm::Declaration(declaration.into_inner()))
        }
        Form::Block(block) => Role::Within(Form::Block(block)),
        Form::Action(action) => Role::Within(Form::Action(action)),
        Form::If(condition, action) => Role::Within(Form::If(condition, action)),
    }
}
