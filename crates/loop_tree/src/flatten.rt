//! The lines of a function, in the order of its text: `specs/Lines.antt` says which they are.
ghost use Rattle.std.specs.Prelude.{◌≡◌, ◌++◌, IfOk, OnOk};
ghost use Rattle.loop_tree.specs.Lines.{flat, flats, lines_of};

use crate::tree::{CodeLine, Function, Stmt};
use sqlite_items::Items;
use std::alloc::{AllocError, Global};

impl Function {
    /// Its lines below the head, the last of which closes its brace. Rows are copied.
    pub fn lines(&self, alloc: Global) -> Result<Items<CodeLine>, AllocError>
        ensures { IfOk result (λ lines. lines ≡ lines_of self.now) }
    {
        let mut lines = Items::new(alloc);
        put_all(&mut lines, self.body.as_slice(), alloc)?;
        lines.push(CodeLine::Close)?;
        Ok(lines)
    }
}

#[cycle(put)]
fn put(lines: &mut Items<CodeLine>, statement: &Stmt, alloc: Global) -> Result<(), AllocError>
    ensures { OnOk result (lines.new ≡ lines.old ++ flat statement.now) }
{
    match statement {
        Stmt::Row(row) => {
            let row = row.copy(alloc)?;
            lines.push(CodeLine::Row(row))?;
            Ok(())
        }
        Stmt::If(test, body) => {
            lines.push(CodeLine::If(*test))?;
            put_all(lines, body.as_slice(), alloc)?;
            lines.push(CodeLine::Close)?;
            Ok(())
        }
        Stmt::IfElse(test, body, other) => {
            lines.push(CodeLine::If(*test))?;
            put_all(lines, body.as_slice(), alloc)?;
            lines.push(CodeLine::Else)?;
            put_all(lines, other.get().as_slice(), alloc)?;
            lines.push(CodeLine::Close)?;
            Ok(())
        }
        Stmt::ForUp(k, bound, body) => {
            lines.push(CodeLine::ForUp(*k, *bound))?;
            put_all(lines, body.as_slice(), alloc)?;
            lines.push(CodeLine::Close)?;
            Ok(())
        }
        Stmt::ForDown(k, bound, body) => {
            lines.push(CodeLine::ForDown(*k, *bound))?;
            put_all(lines, body.as_slice(), alloc)?;
            lines.push(CodeLine::Close)?;
            Ok(())
        }
        Stmt::Forever(body) => {
            lines.push(CodeLine::Forever)?;
            put_all(lines, body.as_slice(), alloc)?;
            lines.push(CodeLine::Close)?;
            Ok(())
        }
    }
}

#[cycle(put)]
fn put_all(lines: &mut Items<CodeLine>, body: &[Stmt], alloc: Global) -> Result<(), AllocError>
    ensures { OnOk result (lines.new ≡ lines.old ++ flats body.now) }
{
    for statement in body {
        put(lines, statement, alloc)?;
    }
    Ok(())
}
