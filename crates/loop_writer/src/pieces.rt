//! A program that comes piece by piece.
ghost use Rattle.std.specs.Prelude.{◌≡◌, [], ◌∷◌, List, Option, Result, IfOk, OnOk};
ghost use Rattle.loop_writer.specs.Pieces.{IsNext, IsOutside, BeginsMain};

use a95_base::Memory;
use loop_tree::{Code, Letter};
use sqlite_items::Items;
use std::alloc::Global;

/// A part of a program.
#[derive(Drop)]
pub enum Piece {
    /// Begins a function, which has the next number, with the letters of its parameters.
    Begin(Items<Letter>),
    /// Statements of the function that was begun last, behind those that it has.
    Code(Code),
}

/// What makes a program, as a lowering does: it is asked for the pieces of the program in their order.
pub trait Producer {
    ghost use Rattle.loop_writer.specs.declared.pieces.Piece.{Piece};

    /// The pieces that are to come.
    ghost left: { Self → List Piece };

    /// The next piece, or none behind the last. Of a producer that found no memory nothing is known.
    fn next(&mut self, alloc: Global) -> Result<Option<Piece>, Memory>
        ensures next { IfOk result (IsNext (left self.old) (left self.new)) }
        ensures outside { IfOk result IsOutside };
}

/// Takes the piece that begins the main function.
pub fn begin_main<P: Producer>(alloc: Global, pieces: &mut P) -> Result<(), Memory>
    requires { BeginsMain (P.left pieces.old) }
    ensures { OnOk result (P.left pieces.old ≡ Piece.Begin [] ∷ P.left pieces.new) }
{
    match pieces.next(alloc)? {
        Some(Piece::Begin(_)) => Ok(()),
        _ => unreachable!(),
    }
}
