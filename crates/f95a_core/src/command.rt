//! The top call.
ghost use Rattle.std.specs.Prelude.{◌≡◌, ◌<◌, ◌^◌, List, length, map, string_bytes, IfOk};
ghost use Rattle.io_edge.specs.Causes.{Rose};
ghost use Rattle.f95a_core.specs.Status.{note};
ghost use Rattle.command_words.specs.Commands.{command_of, OnNoCommand, OnBuild, OnRun, UnlessRun};
ghost use Rattle.f95a_core.specs.Outside.{files, stream};
ghost use Rattle.f95a_core.specs.Answers.{Answers, Noted, IsUsage};
ghost use Rattle.f95a_core.specs.Building.{BuildComesTo, BuildsUnbroken, BuildsNoOther};
ghost use Rattle.f95a_core.specs.Running.{job, RunComesTo, RunsText};

use crate::building::build;
use crate::running::run;
use crate::source::breaks_nothing;
use crate::status::Status;
use command_words::{Command, command_of};
use io_edge::{PutFault, Shelf, Sink, Source};
use loop_text::one_program;
use loop_tree::one_outcome;
use std::alloc::{AllocError, Global};
use std::fmt::Write;

/// The note of a status, with its line feed.
fn note_of(alloc: Global, status: &Status) -> Result<String, AllocError>
    ensures { IfOk result (λ text. string_bytes text ≡ note status.now) }
{
    let mut text = String::new(alloc);
    match status {
        Status::Done => {}
        Status::Refused { phase, line, rule } => {
            let line = line.0;
            let rule = rule.0;
            write!(
                text,
                "f95a: refused: phase {phase}, line {line}, rule P{rule}\n"
            )?;
        }
        Status::Usage => text.push_str("f95a: usage\n")?,
        Status::Fault { kind, line } => {
            let number = kind.number();
            let line = line.0;
            write!(text, "f95a: fault F{number} at line {line}\n")?;
        }
        Status::TextRefused { line } => {
            let line = line.0;
            write!(text, "f95a: text refused at line {line}\n")?;
        }
        Status::Stuck { why } => {
            let number = why.number();
            write!(text, "f95a: stuck S{number}\n")?;
        }
        Status::TurnLimit => text.push_str("f95a: turn limit\n")?,
        Status::InputTooLong => text.push_str("f95a: input too long\n")?,
        Status::ReadFault => text.push_str("f95a: read fault\n")?,
        Status::WriteFault => text.push_str("f95a: write fault\n")?,
        Status::Memory => text.push_str("f95a: no memory\n")?,
    }
    Ok(text)
}

/// Writes the note of a status. The answer is the status, unless the note can't be written.
fn noted<N: Sink>(alloc: Global, status: Status, notes: &mut N) -> Status
    ensures noted { Noted status result
        (stream (N.written notes.old) (N.faults notes.old))
        (stream (N.written notes.new) (N.faults notes.new)) }
{
    if let Status::Done = status {
        return Status::Done;
    }
    let Ok(text) = note_of(alloc, &status) else {
        return Status::Memory;
    };
    match notes.put(text.as_bytes()) {
        Ok(()) => status,
        Err(PutFault::Failed) => Status::WriteFault,
        Err(PutFault::Memory) => Status::Memory,
    }
}

/// Carries out the words of a command line: `build NAME` compiles the file of that name and writes the text of its
/// program to `out`; `run NAME` and `run NAME --turns N` read the file of that name as such a text, take all of `input`, and
/// execute the program, which writes its records to `out` and begins at most N turns, or 10^12. Each status but `Done`
/// writes its note to `notes`. What each command comes to stands in `specs/Building.antt` and `specs/Running.antt`, what
/// becomes of its note in `specs/Answers.antt`.
pub fn f95a<H: Shelf, S: Source, K: Sink, N: Sink>(
    alloc: Global,
    words: &[String],
    shelf: &mut H,
    input: &mut S,
    out: &mut K,
    notes: &mut N,
) -> Status
    // Words that are no command are answered with Usage, unless memory is wanting to read them, and nothing is touched but
    // the notes.
    ensures usage { OnNoCommand (command_of (map string_bytes words.now)) (Answers result
        (stream (N.written notes.old) (N.faults notes.old)) (stream (N.written notes.new) (N.faults notes.new))
        IsUsage) }
    ensures untouched { OnNoCommand (command_of (map string_bytes words.now))
        ((shelf.new ≡ shelf.old) × (input.new ≡ input.old) × (out.new ≡ out.old)) }
    ensures build { OnBuild (command_of (map string_bytes words.now)) (λ name. Answers result
        (stream (N.written notes.old) (N.faults notes.old)) (stream (N.written notes.new) (N.faults notes.new))
        (λ came. BuildComesTo name
        (files (H.file shelf.old) (H.failed shelf.old) (H.faults shelf.old))
        (files (H.file shelf.new) (H.failed shelf.new) (H.faults shelf.new))
        (stream (K.written out.old) (K.faults out.old)) (stream (K.written out.new) (K.faults out.new))
        (out.new ≡ out.old) came)) }
    ensures run { OnRun (command_of (map string_bytes words.now)) (λ name turns. Answers result
        (stream (N.written notes.old) (N.faults notes.old)) (stream (N.written notes.new) (N.faults notes.new))
        (λ came. RunComesTo name turns
        (files (H.file shelf.old) (H.failed shelf.old) (H.faults shelf.old))
        (files (H.file shelf.new) (H.failed shelf.new) (H.faults shelf.new))
        (stream (S.left input.old) (S.faults input.old)) (stream (S.left input.new) (S.faults input.new))
        (stream (K.written out.old) (K.faults out.old)) (stream (K.written out.new) (K.faults out.new))
        (input.new ≡ input.old) (out.new ≡ out.old) came)) }
    // Only `run` takes input.
    ensures input { UnlessRun (command_of (map string_bytes words.now)) (input.new ≡ input.old) }
    // A source is built exactly where it breaks no rule, and a text is run to what its program comes to, unless a device or
    // memory fails.
    ensures builds_unbroken { OnBuild (command_of (map string_bytes words.now)) (λ name. BuildsUnbroken (H.file shelf.old name) result) }
    ensures builds_no_other { OnBuild (command_of (map string_bytes words.now)) (λ name. BuildsNoOther (H.file shelf.old name) result) }
    ensures runs_text { OnRun (command_of (map string_bytes words.now)) (λ name turns.
        RunsText (job (H.file shelf.old name) (S.left input.old) turns)
        (stream (K.written out.old) (K.faults out.old)) (stream (K.written out.new) (K.faults out.new)) result) }
{
    breaks_nothing();
    one_program();
    one_outcome();
    let Ok(command) = command_of(alloc, words) else {
        return noted(alloc, Status::Memory, notes);
    };
    match command {
        Some(Command::BuildFile(name)) => noted(alloc, build(alloc, name, shelf, out), notes),
        Some(Command::RunFile(name, turns)) => {
            noted(alloc, run(alloc, name, turns, shelf, input, out), notes)
        }
        None => noted(alloc, Status::Usage, notes),
    }
}
