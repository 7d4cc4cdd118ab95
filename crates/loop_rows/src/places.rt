//! Places in the lines of a program's functions.
ghost use Rattle.std.specs.Prelude.{◌≡◌, ◌∷◌, ◌+◌, ◌<◌, ◌^◌, [], drop, OnSome, MatchOption};
ghost use Rattle.a95_base.specs.Lists.{rest_of};
ghost use Rattle.loop_tree.specs.Machine.{exits, exit_of, behind, first_exit};
ghost use Rattle.loop_rows.specs.Shown.{lines_in, is_else};

use crate::routine::Routine;
use loop_tree::CodeLine;
use sqlite_items::at;

/// The lines of a function.
#[tactic(auto, using(crate::proofs::Exits::no_lines))]
pub fn lines_at(routines: &[Routine], routine: usize) -> &[CodeLine]
    ensures { result.now ≡ lines_in routines.now routine }
{
    match routines.get(routine) {
        Some(found) => found.lines(),
        None => &[],
    }
}

/// The line at a place of a function, or None behind the last one.
#[tactic(auto, using(crate::proofs::Exits::no_lines))]
pub fn line_at(routines: &[Routine], routine: usize, place: usize) -> Option<&CodeLine>
    ensures line { MatchOption result
        (drop place (lines_in routines.now routine) ≡ [])
        (λ line. drop place (lines_in routines.now routine) ≡ line.now ∷ drop (place + 1) (lines_in routines.now routine)) }
    ensures within { OnSome result (place + 1 < 2 ^ 64) }
{
    match routines.get(routine) {
        Some(found) => match found.line(place) {
            Some(line) => Some(line),
            None => None,
        },
        None => None,
    }
}

/// Whether the lines from a place to the next brace that closes are rows that a sweep takes.
#[inline]
pub fn is_straight(routines: &[Routine], routine: usize, place: usize) -> bool {
    match routines.get(routine) {
        Some(found) => found.is_straight(place),
        None => false,
    }
}

/// The place of the line that closes the innermost brace that is open at a place.
pub fn exit(routines: &[Routine], routine: usize, place: usize) -> usize
    ensures { drop result (lines_in routines.now routine) ≡ exit_of (drop place (lines_in routines.now routine)) }
{
    match at(routines, routine) {
        Some(found) => found.exit(place),
        None => place,
    }
}

/// The same of the brace around that one.
pub fn outer(routines: &[Routine], routine: usize, place: usize) -> usize
    ensures { drop result (lines_in routines.now routine)
        ≡ first_exit (rest_of (exits (drop place (lines_in routines.now routine)))) }
{
    match at(routines, routine) {
        Some(found) => found.outer(place),
        None => place,
    }
}

/// The place behind a line.
#[tactic(auto, using(crate::proofs::Exits::no_next))]
pub fn next(routines: &[Routine], routine: usize, place: usize) -> usize
    ensures { drop result (lines_in routines.now routine) ≡ rest_of (drop place (lines_in routines.now routine)) }
{
    match routines.get(routine) {
        Some(found) => found.next(place),
        None => place,
    }
}

/// The place behind the line that closes the innermost brace that is open at a place.
pub fn past(routines: &[Routine], routine: usize, place: usize) -> usize
    ensures { drop result (lines_in routines.now routine) ≡ behind (drop place (lines_in routines.now routine)) }
{
    next(routines, routine, exit(routines, routine, place))
}

/// The line at a place begins the other branch of a choice.
pub fn begins_other(routines: &[Routine], routine: usize, place: usize) -> bool
    ensures { result ≡ is_else (drop place (lines_in routines.now routine)) }
{
    match line_at(routines, routine, place) {
        Some(line) => matches!(line, CodeLine::Else),
        None => false,
    }
}
