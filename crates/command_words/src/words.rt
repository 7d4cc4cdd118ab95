//! The command that words are.
ghost use Rattle.std.specs.Prelude.{◌≡◌, IfOk, map, option_map, string_bytes};
ghost use Rattle.clap.specs.Words.{found_of, rows_of};
ghost use Rattle.command_words.specs.Commands as Commands;
ghost use Rattle.command_words.specs.Commands.{asked_by, command_of, turns_of};
ghost use Rattle.command_words.specs.Seen.{seen};

use crate::line::matches_of;
use clap::ArgMatches;
use std::alloc::{AllocError, Global};

/// The turns of a run where the words don't say them.
const DEFAULT_TURNS: u128 = 1_000_000_000_000;

/// The most digits that say the turns of a run.
const MOST_DIGITS: usize = 38;

/// What a command line asks for. Each has the name of a file.
#[derive(Clone, Copy, PartialEq, Eq)]
pub enum Command<'a> {
    /// Its source is compiled.
    BuildFile(&'a str),
    /// Its text is run, and may begin so many turns.
    RunFile(&'a str, u128),
}

/// The command that the words after the program's name are: `build FILE`, or `run FILE` with or without `--turns N` in any
/// place. `None` where they are none, and an error only for want of memory.
pub fn command_of(alloc: Global, words: &[String]) -> Result<Option<Command<'_>>, AllocError>
    ensures { IfOk result (λ command. option_map seen command ≡ command_of (map string_bytes words.now)) }
{
    let Some(matches) = matches_of(alloc, words)? else {
        return Ok(None);
    };
    Ok(asked_by(&matches))
}

/// The command that the matches ask for.
#[tactic(auto, using(crate::proofs::Matched::value_in_rows))]
fn asked_by<'a>(matches: &ArgMatches<'a>) -> Option<Command<'a>>
    ensures { option_map seen result ≡ asked_by (rows_of (found_of matches.now)) }
{
    let command = matches.get_str("COMMAND")?;
    let operand = matches.get_str("OPERAND")?;
    command_named(command, operand, matches.get_str("turns"))
}

/// The command of this name, on a file of the name `operand`, with the value of `--turns`.
fn command_named<'a>(command: &str, operand: &'a str, turns: Option<&str>) -> Option<Command<'a>>
    ensures { option_map seen result ≡ Commands.command_named command.now operand.now (option_map (λ t. t.now) turns.entry) }
{
    match (command, turns) {
        ("build", None) => Some(Command::BuildFile(operand)),
        ("run", None) => Some(Command::RunFile(operand, DEFAULT_TURNS)),
        ("run", Some(digits)) => {
            let turns = turns_of(digits.as_bytes())?;
            Some(Command::RunFile(operand, turns))
        }
        _ => None,
    }
}

/// The number that 1 to 38 digits write.
fn turns_of(digits: &[u8]) -> Option<u128>
    ensures { result ≡ turns_of digits.now }
{
    if digits.is_empty() || digits.len() > MOST_DIGITS {
        return None;
    }
    let mut turns = 0;
    for digit in digits {
        if !digit.is_ascii_digit() {
            return None;
        }
        turns = 10 * turns + u128::from(*digit - b'0');
    }
    Some(turns)
}
