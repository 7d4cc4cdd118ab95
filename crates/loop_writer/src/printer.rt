//! The text of a program, and of its parts, behind the bytes of a `String`.

ghost use Rattle.std.specs.Prelude.{◌≡◌, [], ◌∷◌, ◌++◌, IfOk, OnOk, string_bytes, codes};
ghost use Rattle.loop_tree.specs.Lines.{flat, flats};
ghost use Rattle.loop_tree.specs.Text.{function_head, function_lines, functions_lines, listed, parameters_text, text_of_program};
ghost use Rattle.loop_tree.specs.Text.{with_line_feeds};
ghost use Rattle.loop_writer.specs.Printed.{lines_text, others_text, statements_text};

use a95_base::Memory;
use loop_tree::{CodeLine, Function, Letter, LoopProgram, Stmt};
use std::alloc::{AllocError, Global};
use std::fmt::Write;

/// The text of a program.
pub fn print(alloc: Global, program: &LoopProgram) -> Result<Vec<u8>, Memory>
    ensures { IfOk result (λ bytes. bytes.items ≡ text_of_program program.now) }
{
    let mut out = String::new(alloc);
    put_first_line(&mut out)?;
    put_functions(&mut out, program.functions())?;
    Ok(out.into_bytes())
}

pub fn put_first_line(out: &mut String) -> Result<(), AllocError>
    ensures { OnOk result (string_bytes out.new ≡ string_bytes out.old ++ with_line_feeds (codes "/* LoopC 1 */" ∷ [])) }
{
    write!(out, "/* LoopC 1 */\n")
}

/// Appends the lines of statements.
pub fn put_statements(out: &mut String, statements: &[Stmt]) -> Result<(), AllocError>
    ensures { OnOk result (string_bytes out.new ≡ string_bytes out.old ++ statements_text statements.now) }
{
    put_all(out, statements)
}

/// The functions, which are numbered from 0.
fn put_functions(out: &mut String, functions: &[Function]) -> Result<(), AllocError>
    ensures { OnOk result (string_bytes out.new ≡ string_bytes out.old ++ with_line_feeds (functions_lines 0 functions.now)) }
{
    for (number, function) in functions.iter().enumerate() {
        put_function(out, number, function)?;
    }
    Ok(())
}

fn put_function(out: &mut String, number: usize, function: &Function) -> Result<(), AllocError>
    ensures { OnOk result (string_bytes out.new ≡ string_bytes out.old ++ with_line_feeds (function_lines number function.now)) }
{
    put_head(out, number, function.parameters.as_slice())?;
    write!(out, "\n")?;
    put_all(out, function.body.as_slice())?;
    write!(out, "}}\n")
}

/// The line that begins a function, without its line feed.
pub fn put_head(out: &mut String, number: usize, parameters: &[Letter]) -> Result<(), AllocError>
    ensures { OnOk result (string_bytes out.new ≡ string_bytes out.old ++ function_head number parameters.now) }
{
    write!(out, "void f{number}(")?;
    put_parameters(out, parameters)?;
    write!(out, ") {{")
}

fn put_parameters(out: &mut String, parameters: &[Letter]) -> Result<(), AllocError>
    ensures { OnOk result (string_bytes out.new ≡ string_bytes out.old ++ listed (parameters_text 0 parameters.now)) }
{
    let Some((first, others)) = parameters.split_first() else {
        return Ok(());
    };
    let number = 0_usize;
    write!(out, "{first}{number}")?;
    put_others(out, others)
}

/// The parameters from number 1 on.
fn put_others(out: &mut String, parameters: &[Letter]) -> Result<(), AllocError>
    ensures { OnOk result (string_bytes out.new ≡ string_bytes out.old ++ others_text parameters.now) }
{
    for (place, letter) in parameters.iter().enumerate() {
        let number = place + 1;
        write!(out, ", {letter}{number}")?;
    }
    Ok(())
}

#[cycle(put)]
fn put(out: &mut String, statement: &Stmt) -> Result<(), AllocError>
    ensures { OnOk result (string_bytes out.new ≡ string_bytes out.old ++ lines_text (flat statement.now)) }
{
    match statement {
        Stmt::Row(row) => write!(out, "{row};\n"),
        Stmt::If(test, body) => {
            let head = CodeLine::If(*test);
            put_block(out, &head, body.as_slice())
        }
        Stmt::IfElse(test, body, other) => {
            write!(out, "if ({test}) {{\n")?;
            put_all(out, body.as_slice())?;
            write!(out, "}} else {{\n")?;
            put_all(out, other.get().as_slice())?;
            write!(out, "}}\n")
        }
        Stmt::ForUp(k, bound, body) => {
            let head = CodeLine::ForUp(*k, *bound);
            put_block(out, &head, body.as_slice())
        }
        Stmt::ForDown(k, bound, body) => {
            let head = CodeLine::ForDown(*k, *bound);
            put_block(out, &head, body.as_slice())
        }
        Stmt::Forever(body) => put_block(out, &CodeLine::Forever, body.as_slice()),
    }
}

/// A line that opens a brace, the statements behind it, and the brace that closes it.
#[cycle(put)]
fn put_block(out: &mut String, head: &CodeLine, body: &[Stmt]) -> Result<(), AllocError>
    ensures { OnOk result
        (string_bytes out.new ≡ string_bytes out.old ++ lines_text (head.now ∷ (flats body.now ++ CodeLine.Close ∷ []))) }
{
    write!(out, "{head}\n")?;
    put_all(out, body)?;
    write!(out, "}}\n")
}

#[cycle(put)]
fn put_all(out: &mut String, body: &[Stmt]) -> Result<(), AllocError>
    ensures { OnOk result (string_bytes out.new ≡ string_bytes out.old ++ statements_text body.now) }
{
    for statement in body {
        put(out, statement)?;
    }
    Ok(())
}
