//! What the statement on a line names itself, each name with the line.
ghost use Rattle.std.specs.Prelude.{◌≡◌, ◌++◌, OnOk};
ghost use Rattle.names_types.specs.Mentions.{mentions_on};
ghost use Rattle.names_types.specs.View.{assignments_mentions};

use crate::named::Named;
use a95_base::{Line, SharedBytes};
use f95_tree::Assignment;
use names_types::Mention;
use std::alloc::{AllocError, Global};

/// These names, each with the line.
pub fn note_names(
    line: Line,
    names: Vec<SharedBytes>,
    mentions: &mut Vec<Mention>,
) -> Result<(), AllocError>
    ensures { OnOk result (mentions.new.items ≡ mentions.old.items ++ mentions_on line.0 names.items) }
{
    for name in names {
        mentions.push(Mention { line: line.0, name })?;
    }
    Ok(())
}

/// The names of a part of the statement on a line.
pub fn note<T: Named>(
    alloc: Global,
    line: Line,
    part: &T,
    mentions: &mut Vec<Mention>,
) -> Result<(), AllocError>
    ensures { OnOk result (mentions.new.items ≡ mentions.old.items ++ mentions_on line.0 (T.named part.now)) }
{
    let mut names = Vec::new(alloc);
    part.add_names(&mut names)?;
    note_names(line, names, mentions)
}

/// The names of two parts, one behind the other.
pub fn note_both<T: Named, U: Named>(
    alloc: Global,
    line: Line,
    first: &T,
    second: &U,
    mentions: &mut Vec<Mention>,
) -> Result<(), AllocError>
    ensures { OnOk result (mentions.new.items ≡ mentions.old.items ++ mentions_on line.0 (T.named first.now ++ U.named second.now)) }
{
    let mut names = Vec::new(alloc);
    first.add_names(&mut names)?;
    second.add_names(&mut names)?;
    note_names(line, names, mentions)
}

pub fn note_assignments(
    alloc: Global,
    assignments: &[(Line, Assignment)],
    mentions: &mut Vec<Mention>,
) -> Result<(), AllocError>
    ensures { OnOk result (mentions.new.items ≡ mentions.old.items ++ assignments_mentions assignments.now) }
{
    for assignment in assignments {
        note(alloc, assignment.0, &assignment.1, mentions)?;
    }
    Ok(())
}
