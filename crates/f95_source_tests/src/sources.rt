//! Sources that are read and sources that are refused, by table.
use f95_source::{Refusal, Unit, read};
use rank_one::{Action, Array, Factor, Statement};
use std::alloc::{AllocError, Global};
use std::test::Fail;

/// What a source is refused for: phase, line and rule, or None where it is read.
type Told = Option<(u8, u32, u8)>;

fn told(alloc: Global, text: &[u8]) -> Result<Told, Fail> {
    match read(alloc, text) {
        Ok(_) => Ok(None),
        Err(Refusal::Refused { phase, line, rule }) => Ok(Some((phase, line.0, rule.0))),
        Err(Refusal::Memory) => Err(Fail::new("out of memory")),
    }
}

/// The first source that is told to be something else.
fn first_wrong(alloc: Global, rows: &[(&'static str, Told)]) -> Result<Option<&'static str>, Fail> {
    for (text, want) in rows {
        if told(alloc, text.as_bytes())? != *want {
            return Ok(Some(*text));
        }
    }
    Ok(None)
}

const READ: [(&str, Told); 11] = [
    ("program p\ninteger :: a(3)\na = 2\nprint *, a\nend\n", None),
    ("program p; integer :: a(3); a = 2; print *, a; end", None),
    ("program p\r\ninteger :: a(3)\r\na = 2\r\nend\r\n", None),
    (
        "program p ! a comment\n! another\ninteger :: a(3) ! it's\n\na = 2\nend",
        None,
    ),
    (
        "program p\ninteger :: a(3)\na = &\n2\nprint *, a\nend\n",
        None,
    ),
    (
        "program p\ninteger :: a(1&\n&2)\na = & ! one\n\n! between\n  & 2 + a &\n* 3\nend",
        None,
    ),
    (
        "PROGRAM P\nINTEGER :: A(3)\na = A\nPRINT *, a\nEND PROGRAM p\n",
        None,
    ),
    ("program p\ninteger :: a(3)\nend program p", None),
    ("program p\nendprogram", None),
    ("integer :: a(3)\nprint *, a\nend program", None),
    ("end", None),
];

#[test]
fn sources_are_read(rt: HostRuntime) -> Result<(), Fail> {
    assert_eq!(rt; first_wrong(rt.alloc(), &READ)?, None);
    Ok(())
}

const REFUSED: [(&str, Told); 37] = [
    // text
    ("program p\nx = ?\nend", Some((1, 2, 2))),
    ("program p\nprint *, 'a\nend", Some((1, 2, 5))),
    ("program p\nend &", Some((1, 2, 6))),
    (
        "program p\ninteger :: x = 2147483648\nend\n",
        Some((1, 2, 8)),
    ),
    // a rule of an earlier phase comes before those on earlier lines
    ("else\nreal :: x\nx = 1a\nend", Some((1, 3, 9))),
    ("end\nelse\nreal :: x", Some((2, 3, 12))),
    // forms
    ("program p\nx =\nend", Some((2, 2, 11))),
    ("program p\nreal :: x\nend\n", Some((2, 2, 12))),
    ("program p\nx = 1 +\nreal :: x\nend", Some((2, 2, 11))),
    // nesting
    ("else\nend", Some((3, 1, 14))),
    ("end\nend", Some((3, 2, 14))),
    ("program p\nif (.true.) then\nend", Some((3, 3, 14))),
    ("x = 1\ninteger :: a(3)\nend", Some((3, 2, 14))),
    ("program p\nend program q\n", Some((3, 2, 15))),
    ("integer :: a(3)\nend program p\n", Some((3, 2, 15))),
    ("", Some((3, 1, 17))),
    ("\n\n", Some((3, 3, 17))),
    ("! nothing\n", Some((3, 2, 17))),
    ("program p\n", Some((3, 2, 17))),
    ("program p", Some((3, 1, 17))),
    ("program p\ninteger :: a(3)\na = 2", Some((3, 3, 17))),
    // what isn't built is told only where no other rule of these phases is broken
    ("program p\nimplicit none\nend program q", Some((3, 3, 15))),
    ("program p\nread *, a\n", Some((3, 3, 17))),
    ("module m\nend module m\nprogram p\nend", Some((3, 1, 47))),
    ("program p\nuse m\nend", Some((3, 2, 47))),
    ("program p\nimplicit none\nend", Some((3, 2, 47))),
    ("program p\ninteger :: a\nend", Some((3, 2, 47))),
    ("program p\ninteger :: a(16777217)\nend", Some((3, 2, 47))),
    ("program p\ninteger :: a(3), a(4)\nend", Some((3, 2, 47))),
    (
        "program p\ninteger :: a(3)\n\na = -1\nprint *\nend",
        Some((3, 4, 47)),
    ),
    (
        "program p\ninteger :: a(3)\nif (.true.) then\na = 1\nend if\nend",
        Some((3, 3, 47)),
    ),
    (
        "program p\ninteger :: a(3)\na = 1\ncontains\nsubroutine s\nend subroutine\nend",
        Some((3, 4, 47)),
    ),
    (
        "program p\ninteger :: a(3)\na = 1; a = &\n& a / 2\nend",
        Some((3, 3, 47)),
    ),
    (
        "program p\ninteger :: a(2), b(3)\nx = 1\na = b\nend",
        Some((3, 4, 47)),
    ),
    // names
    ("program p\nx = 1\nend\n", Some((4, 2, 19))),
    (
        "program p\ninteger :: a(3)\na = &\nb\nend",
        Some((4, 3, 19)),
    ),
    (
        "program p\ninteger :: a(3)\na = 1; print *, b\na = c\nend",
        Some((4, 3, 19)),
    ),
];

#[test]
fn sources_are_refused(rt: HostRuntime) -> Result<(), Fail> {
    assert_eq!(rt; first_wrong(rt.alloc(), &REFUSED)?, None);
    Ok(())
}

/// These texts between, so many times each.
fn around(
    alloc: Global,
    first: &str,
    before: &str,
    between: &str,
    behind: &str,
    count: usize,
) -> Result<Vec<u8>, AllocError> {
    let mut text = first.as_bytes().to_vec(alloc)?;
    for _ in 0..count {
        text.extend_from_slice(before.as_bytes())?;
    }
    text.extend_from_slice(between.as_bytes())?;
    for _ in 0..count {
        text.extend_from_slice(behind.as_bytes())?;
    }
    text.extend_from_slice(b"\nend\n")?;
    Ok(text)
}

fn in_brackets(alloc: Global, count: usize) -> Result<Told, Fail> {
    let Ok(text) = around(alloc, "a = &\n", "(", "1", ")", count) else {
        return Err(Fail::new("out of memory"));
    };
    told(alloc, text.as_slice())
}

fn in_blocks(alloc: Global, count: usize) -> Result<Told, Fail> {
    let Ok(text) = around(alloc, "\n", "if (.true.) then\n", "", "end if\n", count) else {
        return Err(Fail::new("out of memory"));
    };
    told(alloc, text.as_slice())
}

#[test]
fn the_65th_bracket_and_block_are_refused(rt: HostRuntime) -> Result<(), Fail> {
    let alloc = rt.alloc();
    assert_eq!(rt; in_brackets(alloc, 64)?, Some((3, 1, 47)));
    assert_eq!(rt; in_brackets(alloc, 65)?, Some((2, 1, 13)));
    assert_eq!(rt; in_blocks(alloc, 64)?, Some((3, 2, 47)));
    assert_eq!(rt; in_blocks(alloc, 65)?, Some((3, 66, 16)));
    Ok(())
}

const CONTINUED: &[u8] = b"program p\ninteger :: b(4), A(3) ! two\na = &\n2; print *, a, B\nend\n";

fn is_two(statement: &Statement) -> bool {
    let Action::Assign { target, value } = &statement.action else {
        return false;
    };
    statement.line == 3
        && *target == 1
        && value.first.first == Factor::Number(2)
        && value.first.rest.is_empty()
        && value.rest.is_empty()
}

fn is_print(statement: &Statement) -> bool {
    match &statement.action {
        Action::Print { arrays } => statement.line == 4 && arrays.as_slice() == [1, 0].as_slice(),
        Action::Assign { .. } => false,
    }
}

/// Whether each statement has the line of its first token, and each name has become the place of its array.
fn is_continued(unit: &Unit) -> bool {
    let [first, second] = unit.statements.as_slice() else {
        return false;
    };
    let declared = [Array { line: 2, extent: 4 }, Array { line: 2, extent: 3 }];
    unit.arrays.as_slice() == declared.as_slice() && is_two(first) && is_print(second)
}

#[test]
fn a_continued_line_is_one_statement(rt: HostRuntime) -> Result<(), Fail> {
    let Ok(unit) = read(rt.alloc(), CONTINUED) else {
        return Err(Fail::new("refused"));
    };
    assert!(rt; is_continued(&unit));
    Ok(())
}
