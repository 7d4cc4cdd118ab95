//! What stands before the statements of a unit: USE, IMPLICIT NONE and declarations.

ghost use Rattle.std.specs.Prelude.{◌≡◌, IfOk};
ghost use Rattle.f95_nesting.specs.Lists.{some, is_absent};
ghost use Rattle.f95_nesting.specs.Machine.{no_section, has_uses_alone, section_move, only_if};
ghost use Rattle.f95_blocks.specs.Units.{section_form};
ghost use Rattle.f95_blocks.specs.declared.roles.SectionForm.TheVariants as form_of;

use crate::roles::SectionForm;
use a95_base::{Line, SharedBytes};
use f95_tree::{Declaration, Section};
use sqlite_items::Items;
use std::alloc::{AllocError, Global};

/// Nothing.
pub fn no_section(alloc: Global) -> Section
    ensures { result ≡ no_section }
{
    Section {
        uses: Items::new(alloc),
        implicit: None,
        declarations: Items::new(alloc),
    }
}

fn is_absent(line: &Option<Line>) -> bool
    ensures { result ≡ is_absent line.now }
{
    match line {
        None => true,
        Some(_) => false,
    }
}

fn some(declarations: &[(Line, Declaration)]) -> bool
    ensures { result ≡ some declarations.now }
{
    match declarations {
        [] => false,
        [_, ..] => true,
    }
}

/// Whether USE and IMPLICIT NONE may still follow.
fn has_uses_alone(section: &Section) -> bool
    ensures { result ≡ has_uses_alone section.now }
{
    is_absent(&section.implicit) && !some(section.declarations.as_slice())
}

/// Adds USE, if it may still follow, and answers whether it may.
fn add_use(
    section: &mut Section,
    line: Line,
    name: SharedBytes,
    only: Option<Items<SharedBytes>>,
) -> Result<bool, AllocError>
    ensures { IfOk result (λ may. section_move section.old line (section_form (form_of.Use name only)) ≡ only_if may section.new) }
{
    if !has_uses_alone(section) {
        drop(name);
        drop(only);
        return Ok(false);
    }
    section.uses.push((line, name, only))?;
    Ok(true)
}

/// Adds IMPLICIT NONE, if it may still follow, and answers whether it may.
fn add_implicit(section: &mut Section, line: Line) -> bool
    ensures { section_move section.old line (section_form form_of.ImplicitNone) ≡ only_if result section.new }
{
    if !has_uses_alone(section) {
        return false;
    }
    section.implicit = Some(line);
    true
}

/// Adds a declaration, which may always follow.
fn add_declaration(
    section: &mut Section,
    line: Line,
    declared: Declaration,
) -> Result<bool, AllocError>
    ensures { IfOk result
        (λ may. section_move section.old line (section_form (form_of.Declaration declared)) ≡ only_if may section.new) }
{
    section.declarations.push((line, declared))?;
    Ok(true)
}

/// Adds a statement, if it may still follow, and answers whether it may.
fn add_form(section: &mut Section, line: Line, form: SectionForm) -> Result<bool, AllocError>
    ensures { IfOk result (λ may. section_move section.old line (section_form form) ≡ only_if may section.new) }
{
    match form {
        SectionForm::Use(name, only) => add_use(section, line, name, only),
        SectionForm::ImplicitNone => Ok(add_implicit(section, line)),
        SectionForm::Declaration(declared) => add_declaration(section, line, declared),
    }
}

fn kept(may: bool, section: Section) -> Option<Section>
    ensures { result ≡ only_if may section }
{
    if may {
        Some(section)
    } else {
        drop(section);
        None
    }
}

/// The section with one statement more, if that may still follow.
pub fn with_form(
    section: Section,
    line: Line,
    form: SectionForm,
) -> Result<Option<Section>, AllocError>
    ensures { IfOk result (λ s. s ≡ section_move section line (section_form form)) }
{
    let mut section = section;
    match add_form(&mut section, line, form) {
        Ok(may) => Ok(kept(may, section)),
        Err(error) => {
            drop(section);
            Err(error)
        }
    }
}
