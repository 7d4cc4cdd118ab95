//! The text of a program, written to a sink while the program is made.
ghost use Rattle.std.specs.Prelude.{◌≡◌, ◌∷◌, ◌++◌, ◌<◌, ◌≤◌, ◌^◌, [], length, string_bytes, Option, OnOk, OnErr, IfOk, IfErr};
ghost use Rattle.std.specs.Prelude.{IsErrOf, Some};
ghost use Rattle.std.specs.Io.KnownBytes.{Appends};
ghost use Rattle.io_edge.specs.Causes.{Rose};
ghost use Rattle.io_edge.specs.Known.{AppendsPrefix};
ghost use Rattle.loop_tree.specs.Program.{IsProgram};
ghost use Rattle.loop_writer.specs.Pieces.{functions_of, text_of, BeginsMain, IsCutOff, IsNext, IsOutside};
ghost use Rattle.loop_writer.specs.Printed.{begun_text, end_text, piece_text, count_behind, FitsPiece, Leaves, BreaksOff};

use crate::pieces::{Piece, Producer, begin_main};
use crate::printer::{put_first_line, put_head, put_statements};
use a95_base::Memory;
use io_edge::{PutFault, Sink};
use std::alloc::{AllocError, Global};
use std::fmt::Write;

// A text that is held is put once it is as long.
const HELD: usize = 1 << 16;

// A program has no more functions, and a function no more parameters.
const MOST: usize = 1 << 32;

/// Writes the text of a program while it is made. It holds one piece, its text, and less than 64 KiB of text before it.
/// Where it fails, what was written is a prefix of that text, and of the text of the pieces that were given.
/// A program of more than 2^32 functions, or with more parameters in one, is answered as want of memory.
pub fn write<P: Producer, K: Sink>(
    alloc: Global,
    pieces: &mut P,
    out: &mut K,
) -> Result<(), PutFault>
    requires { BeginsMain (P.left pieces.old) }
    ensures whole { OnOk result (Appends (K.written out.old) (K.written out.new) (text_of (P.left pieces.old))) }
    ensures program { OnOk result (IsProgram (functions_of (P.left pieces.old))) }
    ensures prefix { OnErr result (AppendsPrefix (K.written out.old) (K.written out.new) (text_of (P.left pieces.old))) }
    ensures cut { OnErr result (IsCutOff (K.written out.old) (K.written out.new) (P.left pieces.old)) }
    ensures ok { OnOk result (K.faults out.new ≡ K.faults out.old) }
    ensures counted { IsErrOf result PutFault.Failed → Rose (K.faults out.old) (K.faults out.new) }
    ensures later { K.faults out.old ≤ K.faults out.new }
{
    let Ok(mut held) = begun_text(alloc, pieces) else {
        return Err(PutFault::Memory);
    };
    let mut count = 1_usize;
    while let Some(piece) = next_piece(alloc, pieces)? {
        let Ok(behind) = put_piece(&mut held, count, piece) else {
            return Err(PutFault::Memory);
        };
        put_grown(&mut held, out)?;
        count = behind;
    }
    let Ok(()) = put_end(&mut held) else {
        return Err(PutFault::Memory);
    };
    put_held(&mut held, out)
}

/// The text of what every program begins with.
fn begun_text<P: Producer>(alloc: Global, pieces: &mut P) -> Result<String, Memory>
    requires { BeginsMain (P.left pieces.old) }
    ensures begun { IfOk result (λ _. P.left pieces.old ≡ Piece.Begin [] ∷ P.left pieces.new) }
    ensures text { IfOk result (λ text. string_bytes text ≡ begun_text) }
{
    begin_main(alloc, pieces)?;
    let mut text = String::new(alloc);
    put_first_line(&mut text)?;
    put_head(&mut text, 0, &[])?;
    write!(text, "\n")?;
    Ok(text)
}

fn next_piece<P: Producer>(alloc: Global, pieces: &mut P) -> Result<Option<Piece>, PutFault>
    ensures next { IfOk result (IsNext (P.left pieces.old) (P.left pieces.new)) }
    ensures outside { IfOk result IsOutside }
    ensures memory { IfErr result (λ e. e ≡ PutFault.Memory) }
{
    match pieces.next(alloc) {
        Ok(next) => Ok(next),
        Err(Memory) => Err(PutFault::Memory),
    }
}

/// Appends the text of a piece behind so many functions, and answers how many there are behind it.
fn put_piece(held: &mut String, count: usize, piece: Piece) -> Result<usize, AllocError>
    requires { IsOutside (Some piece) }
    ensures text { OnOk result (string_bytes held.new ≡ string_bytes held.old ++ piece_text count piece) }
    ensures count { IfOk result (λ n. n ≡ count_behind count piece) }
    ensures few { IfOk result (λ n. count ≤ 2 ^ 32 → n ≤ 2 ^ 32) }
    ensures fits { OnOk result (FitsPiece piece) }
{
    match piece {
        Piece::Begin(parameters) => {
            if count >= MOST || parameters.len() > MOST {
                return Err(AllocError);
            }
            put_end(held)?;
            put_head(held, count, parameters.as_slice())?;
            write!(held, "\n")?;
            Ok(count + 1)
        }
        Piece::Code(code) => {
            put_statements(held, code.statements())?;
            Ok(count)
        }
    }
}

/// Appends the line that closes a function.
fn put_end(held: &mut String) -> Result<(), AllocError>
    ensures { OnOk result (string_bytes held.new ≡ string_bytes held.old ++ end_text) }
{
    write!(held, "}}\n")
}

/// Puts the text that is held once it is long enough.
#[tactic(auto, using(crate::proofs::Left::nothing_put, crate::proofs::Left::all_put))]
fn put_grown<K: Sink>(held: &mut String, out: &mut K) -> Result<(), PutFault>
    ensures short { OnOk result (length (string_bytes held.new) < 2 ^ 16) }
    ensures left { OnOk result (Leaves (K.written out.old) (K.written out.new) (string_bytes held.new) (string_bytes held.old)) }
    ensures prefix { OnErr result (BreaksOff (K.written out.old) (K.written out.new) (string_bytes held.old)) }
    ensures ok { OnOk result (K.faults out.new ≡ K.faults out.old) }
    ensures counted { IsErrOf result PutFault.Failed → Rose (K.faults out.old) (K.faults out.new) }
    ensures later { K.faults out.old ≤ K.faults out.new }
{
    if held.len() < HELD {
        return Ok(());
    }
    put_held(held, out)
}

/// Puts the text that is held, and lets go of it.
#[tactic(auto, using(crate::proofs::Left::cut_short, crate::proofs::Left::nothing_kept))]
fn put_held<K: Sink>(held: &mut String, out: &mut K) -> Result<(), PutFault>
    ensures emptied { OnOk result (string_bytes held.new ≡ []) }
    ensures appended { OnOk result (Appends (K.written out.old) (K.written out.new) (string_bytes held.old)) }
    ensures prefix { OnErr result (BreaksOff (K.written out.old) (K.written out.new) (string_bytes held.old)) }
    ensures ok { OnOk result (K.faults out.new ≡ K.faults out.old) }
    ensures counted { IsErrOf result PutFault.Failed → Rose (K.faults out.old) (K.faults out.new) }
    ensures later { K.faults out.old ≤ K.faults out.new }
{
    match out.put(held.as_bytes()) {
        Ok(()) => {
            held.clear();
            Ok(())
        }
        Err(PutFault::Failed) => Err(PutFault::Failed),
        Err(PutFault::Memory) => Err(PutFault::Memory),
    }
}
