//! The command line as `clap` reads it.
ghost use Rattle.std.specs.Prelude.{◌≡◌, IfOk, map, option_map, string_bytes};
ghost use Rattle.clap.specs.Words.{app_of, found_of, rows_of};
ghost use Rattle.command_words.specs.CommandLine as CommandLine;
ghost use Rattle.command_words.specs.CommandLine.{command_line};

use clap::error::ErrorKind;
use clap::{Arg, ArgMatches};
use std::alloc::{AllocError, Global};

/// The positionals COMMAND and OPERAND, which are required, and the option `--turns` with one value.
fn command_line<'a>(alloc: Global) -> Result<clap::Command<'a>, AllocError>
    ensures { IfOk result (λ line. app_of line ≡ command_line) }
{
    let command = Arg::new(alloc, "COMMAND").required(true);
    let operand = Arg::new(alloc, "OPERAND").required(true);
    let turns = Arg::new(alloc, "turns").long("turns");
    clap::Command::new(alloc, "f95a")
        .no_binary_name(true)
        .disable_help_flag(true)
        .disable_version_flag(true)
        .arg(command)?
        .arg(operand)?
        .arg(turns)
}

/// The matches that the words have, unless they are refused.
pub(crate) fn matches_of<'a>(
    alloc: Global,
    words: &'a [String],
) -> Result<Option<ArgMatches<'a>>, AllocError>
    ensures { IfOk result (λ matches. option_map (λ m. rows_of (found_of m)) matches
        ≡ CommandLine.matches (map string_bytes words.now)) }
{
    let line = command_line(alloc)?;
    match line.try_get_matches_from(words) {
        Ok(matches) => Ok(Some(matches)),
        Err(e) if e.kind() == ErrorKind::OutOfMemory => Err(AllocError),
        Err(_) => Ok(None),
    }
}
