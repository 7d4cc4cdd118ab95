//! Whole command lines over objects in memory.
ghost use Rattle.std.specs.Prelude.{◌≤◌};

use f95a_core::{code, f95a};
use io_edge::{MemoryShelf, MemorySink, MemorySource, Shelf, Sink, Source};
use std::alloc::{AllocError, Global};

/// Which calls of each device fail, counted from 1. A put that fails has passed three bytes, one of the notes five.
#[derive(Clone, Copy)]
pub struct Failing {
    pub loads: &'static [u64],
    pub takes: &'static [u64],
    pub puts: &'static [u64],
    pub told: &'static [u64],
}

const NONE: Failing = Failing {
    loads: &[],
    takes: &[],
    puts: &[],
    told: &[],
};

/// The first call of each device but the notes.
pub const FIRST: Failing = Failing {
    loads: &[1],
    takes: &[1],
    puts: &[1],
    told: &[],
};

/// What a command line comes to: the exit code, and the devices as they are left.
#[derive(Drop)]
pub struct Came {
    pub code: u8,
    shelf: MemoryShelf,
    input: MemorySource,
    out: MemorySink,
    notes: MemorySink,
}

impl Came {
    pub fn is(&self, code: u8, out: &[u8], notes: &str) -> bool {
        self.code == code && self.out() == out && self.notes() == notes.as_bytes()
    }

    pub fn out(&self) -> &[u8] {
        self.out.written()
    }

    pub fn notes(&self) -> &[u8] {
        self.notes.written()
    }

    /// The name of the file that wasn't loaded.
    pub fn failed(&self) -> &str {
        self.shelf.failed()
    }

    /// Whether no file was loaded, where the first load fails.
    pub fn loaded_nothing(&mut self, alloc: Global) -> bool {
        let mut into = Vec::new(alloc);
        self.shelf.load(alloc, "p", &mut into).is_err()
    }

    /// Whether the input was never asked, where its first call fails.
    pub fn took_nothing(&mut self) -> bool {
        self.input.take(&mut [0; 8]).is_err()
    }

    /// Whether nothing was put to the output, where the first put fails.
    pub fn put_nothing(&mut self) -> bool {
        self.out.put(b"more").is_err()
    }
}

fn words_of(alloc: Global, words: &[&str]) -> Result<Vec<String>, AllocError> {
    let mut all = Vec::new(alloc);
    for word in words {
        all.push(String::from_str(alloc, word)?)?;
    }
    Ok(all)
}

/// The words, with these bytes as the one file, `p`, over devices of which some calls fail, and an input that comes in
/// pieces of so many bytes.
fn over_devices(
    alloc: Global,
    words: &[&str],
    file: &[u8],
    input: &[u8],
    piece: usize,
    failing: Failing,
) -> Result<Came, AllocError>
    requires { 1 ≤ piece }
{
    let words = words_of(alloc, words)?;
    let mut files = Vec::new(alloc);
    files.push((String::from_str(alloc, "p")?, Vec::from_slice(alloc, file)?))?;
    let loads = Vec::from_slice(alloc, failing.loads)?;
    let takes = Vec::from_slice(alloc, failing.takes)?;
    let mut shelf = MemoryShelf::new(alloc, files, loads);
    let mut input = MemorySource::new(Vec::from_slice(alloc, input)?, piece, takes);
    let mut out = MemorySink::new(alloc, Vec::from_slice(alloc, failing.puts)?, 3);
    let mut notes = MemorySink::new(alloc, Vec::from_slice(alloc, failing.told)?, 5);
    let status = f95a(
        alloc,
        words.as_slice(),
        &mut shelf,
        &mut input,
        &mut out,
        &mut notes,
    );
    Ok(Came {
        code: code(&status),
        shelf,
        input,
        out,
        notes,
    })
}

/// The same, with an input that comes byte by byte.
pub fn over_failing(
    alloc: Global,
    words: &[&str],
    file: &[u8],
    input: &[u8],
    failing: Failing,
) -> Result<Came, AllocError> {
    over_devices(alloc, words, file, input, 1, failing)
}

/// The same, over devices that don't fail.
pub fn carried_out(
    alloc: Global,
    words: &[&str],
    file: &[u8],
    input: &[u8],
) -> Result<Came, AllocError> {
    over_devices(alloc, words, file, input, 1 << 16, NONE)
}

/// Of files, the first on which the words don't end with this code, this note and no output.
pub fn first_not_refused(
    alloc: Global,
    words: &[&str],
    code: u8,
    cases: &[(&'static str, &'static str)],
) -> Result<Option<&'static str>, AllocError> {
    for (file, note) in cases {
        let came = carried_out(alloc, words, file.as_bytes(), b"")?;
        if !came.is(code, b"", *note) {
            return Ok(Some(*file));
        }
    }
    Ok(None)
}

/// Of words that are no command, the first that don't end so or that touch a device, by their place.
pub fn first_no_usage(
    alloc: Global,
    lines: &[&'static [&'static str]],
    file: &[u8],
) -> Result<Option<usize>, AllocError> {
    for (place, words) in lines.iter().enumerate() {
        let mut came = over_failing(alloc, *words, file, b"7", FIRST)?;
        let usage = came.is(2, b"", "f95a: usage\n") && came.failed().is_empty();
        if !usage || !came.loaded_nothing(alloc) || !came.took_nothing() || !came.put_nothing() {
            return Ok(Some(place));
        }
    }
    Ok(None)
}

/// Of failing devices, the first over which the words don't end with this code, output and note, by their place.
pub fn first_not_failed(
    alloc: Global,
    words: &[&str],
    file: &[u8],
    input: &[u8],
    cases: &[(Failing, u8, &'static str, &'static str)],
) -> Result<Option<usize>, AllocError> {
    for (place, (failing, code, out, notes)) in cases.iter().enumerate() {
        let came = over_failing(alloc, words, file, input, *failing)?;
        if !came.is(*code, out.as_bytes(), *notes) {
            return Ok(Some(place));
        }
    }
    Ok(None)
}
