//! Lists of words, and the command that each is.
use command_words::{Command, command_of, usual_words};
use std::alloc::{AllocError, Global};
use std::test::Fail;

/// Words that ask to build, and the name of the file.
const BUILDS: [(&[&str], &str); 6] = [
    (&["build", "squares.f95"], "squares.f95"),
    (&["build", "a b=c"], "a b=c"),
    (&["build", ""], ""),
    (&["build", "-"], "-"),
    (&["build", "run"], "run"),
    (&["--", "build", "--turns"], "--turns"),
];

/// Words that ask to run, the name of the file, and the most turns.
const RUNS: [(&[&str], &str, u128); 12] = [
    (&["run", "x"], "x", 1000000000000),
    (&["run", "build"], "build", 1000000000000),
    (&["run", "--", "-x"], "-x", 1000000000000),
    (&["run", "x", "--turns", "5"], "x", 5),
    (&["run", "x", "--turns=5"], "x", 5),
    (&["run", "--turns", "5", "x"], "x", 5),
    (&["run", "--turns=5", "x"], "x", 5),
    (&["--turns", "5", "run", "x"], "x", 5),
    (&["--turns=0", "run", "x"], "x", 0),
    (&["run", "--turns", "5", "--", "x"], "x", 5),
    (
        &[
            "run",
            "x",
            "--turns",
            "00000000000000000000000000000000000007",
        ],
        "x",
        7,
    ),
    (
        &["run", "x", "--turns=99999999999999999999999999999999999999"],
        "x",
        99999999999999999999999999999999999999,
    ),
];

/// Words that are no command.
const OTHERS: [&[&str]; 36] = [
    &[],
    &[""],
    &["build"],
    &["run"],
    &["run", "--turns", "5"],
    &["run", "--turns=5"],
    &["x", "build"],
    &["x", "run"],
    &["Build", "x"],
    &["RUN", "x"],
    &["buil", "x"],
    &["builds", "x"],
    &["build", "x", "y"],
    &["run", "x", "y"],
    &["run", "x", "5"],
    &["run", "x", "y", "--turns", "5"],
    &["build", "x", "--turns", "3"],
    &["build", "x", "--turns=3"],
    &["--turns", "3", "build", "x"],
    &["run", "x", "--turns"],
    &["run", "x", "--turns="],
    &["run", "x", "--turns", "x"],
    &["run", "x", "--turns", "5x"],
    &["run", "x", "--turns", "+5"],
    &["run", "x", "--turns", "-5"],
    &["run", "x", "--turns=-5"],
    &["run", "x", "--turns", " 5"],
    &[
        "run",
        "x",
        "--turns",
        "000000000000000000000000000000000000007",
    ],
    &["run", "x", "--turns", "5", "6"],
    &["run", "x", "--turns", "5", "--turns", "5"],
    &["run", "x", "--turn", "5"],
    &["run", "-x"],
    &["run", "x", "--help"],
    &["--help"],
    &["report", "x"],
    &["trial", "1"],
];

fn words_of(alloc: Global, words: &[&str]) -> Result<Vec<String>, AllocError> {
    let mut all = Vec::new(alloc);
    for word in words {
        all.push(String::from_str(alloc, word)?)?;
    }
    Ok(all)
}

/// Whether the words are this command, or none.
fn is_command(
    alloc: Global,
    words: &[&str],
    want: Option<Command<'_>>,
) -> Result<bool, AllocError> {
    let words = words_of(alloc, words)?;
    Ok(command_of(alloc, words.as_slice())? == want)
}

fn first_no_build(alloc: Global, cases: &[(&[&str], &str)]) -> Result<Option<usize>, AllocError> {
    for (place, (words, file)) in cases.iter().enumerate() {
        if !is_command(alloc, *words, Some(Command::BuildFile(*file)))? {
            return Ok(Some(place));
        }
    }
    Ok(None)
}

fn first_no_run(
    alloc: Global,
    cases: &[(&[&str], &str, u128)],
) -> Result<Option<usize>, AllocError> {
    for (place, (words, file, turns)) in cases.iter().enumerate() {
        if !is_command(alloc, *words, Some(Command::RunFile(*file, *turns)))? {
            return Ok(Some(place));
        }
    }
    Ok(None)
}

fn first_command(alloc: Global, cases: &[&[&str]]) -> Result<Option<usize>, AllocError> {
    for (place, words) in cases.iter().enumerate() {
        if !is_command(alloc, *words, None)? {
            return Ok(Some(place));
        }
    }
    Ok(None)
}

#[test]
fn words_ask_to_build(rt: HostRuntime) -> Result<(), Fail> {
    usual_words();
    assert_eq!(rt; first_no_build(rt.alloc(), &BUILDS)?, None);
    Ok(())
}

#[test]
fn words_ask_to_run(rt: HostRuntime) -> Result<(), Fail> {
    assert_eq!(rt; first_no_run(rt.alloc(), &RUNS)?, None);
    Ok(())
}

#[test]
fn other_words_are_no_command(rt: HostRuntime) -> Result<(), Fail> {
    assert_eq!(rt; first_command(rt.alloc(), &OTHERS)?, None);
    Ok(())
}
