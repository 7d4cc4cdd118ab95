//! Declarations that stand in the text of the scope itself.
ghost use Rattle.std.specs.Prelude.{◌≡◌, ◌++◌, map, None, OnOk, option_map};
ghost use Rattle.std.specs.List.{flat_map};
ghost use Rattle.names_types.specs.Plain.{Function};
ghost use Rattle.names_types.specs.Scopes.{InProcedure, declared_by, begun_by, heading_entries};
ghost use Rattle.names_types.specs.View.{declaration_of, procedure_of, heading_name, heading_function, type_in, type_of};
ghost use Rattle.scope_entries.specs.View.{entries_of};

use crate::entry::{Entry, Form};
use a95_base::{Line, SharedBytes};
use f95_tree::{Declaration, Heading, Prefix, Subprogram, TypeSpec};
use std::alloc::AllocError;

/// The entities of a declaration.
fn add_entities<'a>(
    declaration: &'a (Line, Declaration),
    entries: &mut Vec<Entry<'a>>,
) -> Result<(), AllocError>
    ensures { OnOk result
        (entries_of entries.new.items ≡ entries_of entries.old.items ++ declared_by (declaration_of declaration.now)) }
{
    let line = declaration.0.0;
    for entity in declaration.1.entities.as_slice() {
        entries.push(Entry {
            line,
            name: &entity.name,
            form: Form::Declares(declaration, entity),
        })?;
    }
    Ok(())
}

/// The entities of declarations.
pub fn add_declared<'a>(
    declarations: &'a [(Line, Declaration)],
    entries: &mut Vec<Entry<'a>>,
) -> Result<(), AllocError>
    ensures { OnOk result
        (entries_of entries.new.items ≡ entries_of entries.old.items ++ flat_map declared_by (map declaration_of declarations.now)) }
{
    for declaration in declarations {
        add_entities(declaration, entries)?;
    }
    Ok(())
}

fn heading_name(heading: &Heading) -> &SharedBytes
    ensures { result.now ≡ heading_name heading.now }
{
    match heading {
        Heading::Subroutine(name, _) => name,
        Heading::Function(name, _, _) => name,
    }
}

/// The procedures behind CONTAINS.
pub fn add_begun<'a>(
    procedures: &'a [Subprogram],
    entries: &mut Vec<Entry<'a>>,
) -> Result<(), AllocError>
    ensures { OnOk result
        (entries_of entries.new.items ≡ entries_of entries.old.items ++ map begun_by (map procedure_of procedures.now)) }
{
    for procedure in procedures {
        entries.push(Entry {
            line: procedure.line.0,
            name: heading_name(&procedure.procedure.heading),
            form: Form::Begins,
        })?;
    }
    Ok(())
}

/// The type that stands before FUNCTION.
pub fn type_in(prefixes: &[Prefix]) -> Option<&TypeSpec>
    ensures { option_map (λ t. type_of t.now) result ≡ type_in prefixes.now }
{
    for prefix in prefixes {
        if let Prefix::Type(of) = prefix {
            return Some(of);
        }
    }
    None
}

/// The name of a function's result.
pub fn result_name(heading: &Heading) -> Option<&SharedBytes>
    ensures { option_map (λ n. n.now) result ≡ option_map (λ (f : Function). f.result) (heading_function None heading.now) }
{
    match heading {
        Heading::Subroutine(_, _) => None,
        Heading::Function(name, _, None) => Some(name),
        Heading::Function(_, _, Some(result)) => Some(result),
    }
}

/// The type before FUNCTION declares the result, at that statement.
pub fn add_result<'a>(
    procedure: &'a Subprogram,
    entries: &mut Vec<Entry<'a>>,
) -> Result<(), AllocError>
    ensures { OnOk result
        (entries_of entries.new.items ≡ entries_of entries.old.items ++ heading_entries (InProcedure (procedure_of procedure.now))) }
{
    let Some(name) = result_name(&procedure.procedure.heading) else {
        return Ok(());
    };
    let Some(of) = type_in(procedure.procedure.prefixes.as_slice()) else {
        return Ok(());
    };
    entries.push(Entry {
        line: procedure.line.0,
        name,
        form: Form::Types(of),
    })?;
    Ok(())
}
