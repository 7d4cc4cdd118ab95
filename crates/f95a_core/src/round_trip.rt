//! A caller of the top call: builds a source and runs what was built, over objects in memory.
ghost use Rattle.std.specs.Prelude.{◌≡◌, [], ◌∷◌, Some, codes, map, string_bytes, IfOk};
ghost use Rattle.command_words.specs.Commands.{BuildFile, RunFile, command_of, default_turns};
ghost use Rattle.f95a_core.specs.RoundTrip.{Built, Ran, EndsAs};

use crate::command::f95a;
use crate::law::headline;
use crate::status::Status;
use command_words::usual_words;
use io_edge::{CleanShelf, CleanSink, CleanSource};
use std::alloc::{AllocError, Global};

/// A command and the name of the one file.
fn words(alloc: Global, command: &str) -> Result<Vec<String>, AllocError>
    ensures { IfOk result (λ words. map string_bytes words.items ≡ command.now ∷ codes "file" ∷ []) }
{
    let mut words = Vec::new(alloc);
    words.push(String::from_str(alloc, command)?)?;
    words.push(String::from_str(alloc, "file")?)?;
    Ok(words)
}

/// The words that build the one file.
fn build_words(alloc: Global) -> Result<Vec<String>, AllocError>
    ensures { IfOk result (λ words. command_of (map string_bytes words.items) ≡ Some (BuildFile (codes "file"))) }
{
    usual_words();
    words(alloc, "build")
}

/// The words that run it.
fn run_words(alloc: Global) -> Result<Vec<String>, AllocError>
    ensures { IfOk result (λ words. command_of (map string_bytes words.items) ≡ Some (RunFile (codes "file") default_turns)) }
{
    usual_words();
    words(alloc, "run")
}

/// Builds a source, whose text the sink then holds.
fn build_in_memory(
    alloc: Global,
    source: Vec<u8>,
    text: &mut CleanSink,
) -> Result<Status, AllocError>
    requires { text.old ≡ [] }
    ensures { IfOk result (λ status. Built source.items status text.new) }
{
    let words = build_words(alloc)?;
    let mut shelf = CleanShelf::new(source);
    let mut input = CleanSource::new(Vec::new(alloc));
    let mut notes = CleanSink::new(alloc);
    Ok(f95a(
        alloc,
        words.as_slice(),
        &mut shelf,
        &mut input,
        text,
        &mut notes,
    ))
}

/// Runs a text on an input. The sink then holds the output.
fn run_in_memory(
    alloc: Global,
    text: Vec<u8>,
    input: Vec<u8>,
    output: &mut CleanSink,
) -> Result<Status, AllocError>
    requires { output.old ≡ [] }
    ensures { IfOk result (λ status. Ran text.items input.items status output.new) }
{
    let words = run_words(alloc)?;
    let mut shelf = CleanShelf::new(text);
    let mut input = CleanSource::new(input);
    let mut notes = CleanSink::new(alloc);
    Ok(f95a(
        alloc,
        words.as_slice(),
        &mut shelf,
        &mut input,
        output,
        &mut notes,
    ))
}

/// Builds a source, and runs its text on an input within 10^12 turns. The answer is the status, and all that the run wrote.
pub fn build_and_run(
    alloc: Global,
    source: Vec<u8>,
    input: Vec<u8>,
) -> Result<(Status, Vec<u8>), AllocError>
    ensures headline { IfOk result (λ ran. EndsAs source.items input.items ran.0 ran.1.items) }
{
    headline();
    let mut text = CleanSink::new(alloc);
    match build_in_memory(alloc, source, &mut text)? {
        Status::Done => {}
        status => return Ok((status, Vec::new(alloc))),
    }
    let text = Vec::from_slice(alloc, text.written())?;
    let mut output = CleanSink::new(alloc);
    let status = run_in_memory(alloc, text, input, &mut output)?;
    Ok((status, Vec::from_slice(alloc, output.written())?))
}
