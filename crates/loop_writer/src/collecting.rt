//! The program of its pieces.
ghost use Rattle.std.specs.Prelude.{◌≡◌, ◌+◌, ◌≤◌, ◌^◌, length, OnOk, IfOk, Some};
ghost use Rattle.loop_writer.specs.Pieces.{functions_of, BeginsMain, IsOutside};
ghost use Rattle.loop_writer.specs.Printed.{count_behind, FitsPiece};
ghost use Rattle.loop_writer.specs.Collected.{with_piece, closed};

use crate::pieces::{Piece, Producer, begin_main};
use a95_base::Memory;
use loop_tree::{Function, Letter, LoopProgram, Stmt};
use sqlite_items::Items;
use std::alloc::{AllocError, Global};
use std::mem;

// A program has no more functions, and a function no more parameters.
const MOST: usize = 1 << 32;

/// The program of the pieces. One of more than 2^32 functions, or with more parameters in one, is answered as want of
/// memory.
pub fn collect<P: Producer>(alloc: Global, pieces: &mut P) -> Result<LoopProgram, Memory>
    requires { BeginsMain (P.left pieces.old) }
    ensures { IfOk result (λ program. program ≡ functions_of (P.left pieces.old)) }
{
    begin_main(alloc, pieces)?;
    let mut begun = Begun {
        functions: Items::new(alloc),
        parameters: Items::new(alloc),
        body: Items::new(alloc),
    };
    while let Some(piece) = pieces.next(alloc)? {
        begun.push(alloc, piece)?;
    }
    Ok(LoopProgram::new(begun.close()?))
}

/// The functions that were closed, and the one that is open.
#[derive(Drop)]
struct Begun {
    functions: Items<Function>,
    parameters: Items<Letter>,
    body: Items<Stmt>,
}

impl Begun {
    fn push(&mut self, alloc: Global, piece: Piece) -> Result<(), AllocError>
        requires { IsOutside (Some piece) }
        ensures pushed { OnOk result (self.new ≡ with_piece self.old piece) }
        ensures fits { OnOk result (FitsPiece piece) }
        ensures count { OnOk result (length self.new.functions + 1 ≡ count_behind (length self.old.functions + 1) piece) }
        ensures few { OnOk result (length self.old.functions + 1 ≤ 2 ^ 32 → length self.new.functions + 1 ≤ 2 ^ 32) }
    {
        match piece {
            Piece::Begin(parameters) => self.begin(alloc, parameters),
            Piece::Code(code) => self.body.append(code.into_statements()),
        }
    }

    fn begin(&mut self, alloc: Global, parameters: Items<Letter>) -> Result<(), AllocError>
        ensures pushed { OnOk result (self.new ≡ with_piece self.old (Piece.Begin parameters)) }
        ensures fits { OnOk result (length parameters ≤ 2 ^ 32) }
        ensures count { OnOk result (length self.new.functions ≡ length self.old.functions + 1) }
        ensures few { OnOk result (length self.new.functions + 1 ≤ 2 ^ 32) }
    {
        if self.functions.len() >= MOST - 1 || parameters.len() > MOST {
            return Err(AllocError);
        }
        let function = Function {
            parameters: mem::replace(&mut self.parameters, parameters),
            body: mem::replace(&mut self.body, Items::new(alloc)),
        };
        self.functions.push(function)
    }

    /// The functions, the open one closed.
    fn close(self) -> Result<Items<Function>, AllocError>
        ensures { IfOk result (λ functions. functions ≡ closed self) }
    {
        let Begun {
            mut functions,
            parameters,
            body,
        } = self;
        functions.push(Function { parameters, body })?;
        Ok(functions)
    }
}
