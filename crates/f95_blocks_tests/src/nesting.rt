//! Sources that nest and sources that don't, by table.

use a95_base::{Line, PhaseError};
use f95_blocks::nest;
use f95_lexer::{Statement, read_statements};
use f95_parser::read_form;
use f95_tree::Form;
use std::alloc::Global;
use std::test::Fail;

/// The form of each statement, with its line.
fn forms_of(alloc: Global, statements: &[Statement]) -> Result<Vec<(Line, Form)>, PhaseError> {
    let mut forms = Vec::new(alloc);
    for statement in statements {
        let form = read_form(alloc, statement.line, statement.tokens.as_slice())?;
        forms.push((statement.line, form))?;
    }
    Ok(forms)
}

/// The line and the rule that a source breaks, both 0 where it nests.
fn broken_by(alloc: Global, text: &str) -> Result<(u32, u8), PhaseError> {
    let statements = read_statements(alloc, text.as_bytes())?;
    if statements.feeds == u32::MAX {
        return Err(PhaseError::Memory);
    }
    let forms = forms_of(alloc, statements.list.as_slice())?;
    match nest(alloc, forms, statements.feeds) {
        Ok(_) => Ok((0, 0)),
        Err(PhaseError::Broken { line, rule }) => Ok((line.0, rule.0)),
        Err(PhaseError::Memory) => Err(PhaseError::Memory),
    }
}

/// The number of the first row whose source breaks another rule than the one beside it, or breaks it on another line.
fn first_wrong(alloc: Global, rows: &[(&str, u32, u8)]) -> Result<Option<usize>, PhaseError> {
    for (number, (text, line, rule)) in rows.iter().enumerate() {
        let (broken_line, broken_rule) = broken_by(alloc, text)?;
        if broken_line != *line || broken_rule != *rule {
            return Ok(Some(number));
        }
    }
    Ok(None)
}

/// Sources that nest, some of which look as if they broke a rule.
const NESTING: [(&str, u32, u8); 32] = [
    ("end", 0, 0),
    ("end program", 0, 0),
    ("program p\nend program p", 0, 0),
    ("program p\nend program", 0, 0),
    ("integer :: x\nx = 1\nend", 0, 0),
    ("implicit none\nend", 0, 0),
    (
        "use m\nuse n, only : a\nimplicit none\ninteger :: x\nend",
        0,
        0,
    ),
    ("module m\nend module m\nend", 0, 0),
    (
        "module m\nend\nmodule n\nuse m\nimplicit none\ninteger :: x\nend module\nprogram p\nend",
        0,
        0,
    ),
    (
        "module m\ncontains\nsubroutine s\nreturn\nend subroutine s\nend module m\nend",
        0,
        0,
    ),
    (
        "contains\nsubroutine s\nend subroutine\nfunction f()\nend function f\nend",
        0,
        0,
    ),
    (
        "x = 1\ncontains\nfunction f()\nuse m\nimplicit none\ninteger :: f\nf = 1\nend function\nend program",
        0,
        0,
    ),
    (
        "n: if (a) then\nelse if (b) then n\nelse n\nend if n\nend",
        0,
        0,
    ),
    ("n: if (a) then\nelse if (b) then\nelse\nend if\nend", 0, 0),
    (
        "if (a) then\nif (b) then\nelse\nend if\nelse\nend if\nend",
        0,
        0,
    ),
    (
        "n: select case (i)\ncase (1) n\ncase default n\ncase (2)\nend select n\nend",
        0,
        0,
    ),
    ("select case (i)\nend select\nend", 0, 0),
    (
        "select case (i)\ncase default\nselect case (j)\ncase default\nend select\nend select\nend",
        0,
        0,
    ),
    ("n: do\nexit\ncycle n\nend do n\nend", 0, 0),
    (
        "a: do\nb: do\nif (x) exit a\ncycle b\nend do b\nend do a\nend",
        0,
        0,
    ),
    (
        "do\nif (a) then\nselect case (i)\ncase (1)\nexit\nend select\nend if\nend do\nend",
        0,
        0,
    ),
    ("a: do\nend do a\na: do\nexit a\nend do a\nend", 0, 0),
    (
        "where (m)\na = 1\nwhere (n) a = 2\nwhere (k)\nelsewhere\nend where\nelsewhere (l)\nelsewhere\nend where\nend",
        0,
        0,
    ),
    ("where (m) a = 1\nend", 0, 0),
    (
        "where (m)\nelsewhere\nwhere (n)\nelsewhere (k)\nend where\nend where\nend",
        0,
        0,
    ),
    ("forall (i = 1:2)\na(i) = 1\nend forall\nend", 0, 0),
    ("forall (i = 1:2) a(i) = 1\nend", 0, 0),
    ("x = 1; y = 2; end", 0, 0),
    ("end ! done\n\n\n", 0, 0),
    (
        "contains\nsubroutine s\nif (a) return\nend subroutine\nend",
        0,
        0,
    ),
    (
        "program p\ncontains\nsubroutine p\nend subroutine p\nend program p",
        0,
        0,
    ),
    (
        "n: if (a) then\nn: do\nexit n\nend do n\nend if n\nend",
        0,
        0,
    ),
];

/// Statements up to which there is no nesting: rule 14.
const OUT_OF_PLACE: [(&str, u32, u8); 46] = [
    ("contains\nend", 2, 14),
    ("module m\ncontains\nend module\nend", 3, 14),
    ("x = 1\ninteger :: y\nend", 2, 14),
    ("x = 1\nuse m\nend", 2, 14),
    ("integer :: x\nuse m\nend", 2, 14),
    ("implicit none\nuse m\nend", 2, 14),
    ("implicit none\nimplicit none\nend", 2, 14),
    ("integer :: x\nimplicit none\nend", 2, 14),
    ("module m\nx = 1\nend module\nend", 2, 14),
    ("module m\nmodule n\nend", 2, 14),
    ("program p\nprogram q\nend", 2, 14),
    ("return\nend", 1, 14),
    ("if (a) return\nend", 1, 14),
    ("exit\nend", 1, 14),
    ("if (a) cycle\nend", 1, 14),
    ("n: do\nexit m\nend do n\nend", 2, 14),
    ("n: if (a) then\nexit n\nend if n\nend", 2, 14),
    ("do\nend do\nexit\nend", 3, 14),
    ("else\nend", 1, 14),
    ("if (a) then\nelse\nelse\nend if\nend", 3, 14),
    ("if (a) then\nelse\nelse if (b) then\nend if\nend", 3, 14),
    ("if (a) then\nend do\nend", 2, 14),
    ("do; if (a) then\nend do\nend if", 2, 14),
    ("select case (i)\nx = 1\nend select\nend", 2, 14),
    (
        "select case (i)\ncase default\ncase default\nend select\nend",
        3,
        14,
    ),
    (
        "select case (i)\ncase (1)\ncase default\ncase (2)\ncase default\nend select\nend",
        5,
        14,
    ),
    ("case (1)\nend", 1, 14),
    ("where (m)\nelsewhere\nelsewhere\nend where\nend", 3, 14),
    ("where (m)\nelsewhere\nelsewhere (n)\nend where\nend", 3, 14),
    ("where (m)\ncall s\nend where\nend", 2, 14),
    ("where (m)\nif (a) x = 1\nend where\nend", 2, 14),
    ("forall (i = 1:2)\nwhere (m) a = 1\nend forall\nend", 2, 14),
    (
        "forall (i = 1:2)\nforall (j = 1:2) a(j) = 1\nend forall\nend",
        2,
        14,
    ),
    ("contains\nsubroutine s\nend\nend", 3, 14),
    ("contains\nsubroutine s\nend function\nend", 3, 14),
    (
        "contains\nsubroutine s\ncontains\nend subroutine\nend",
        3,
        14,
    ),
    ("contains\nx = 1\nend", 2, 14),
    ("contains\nsubroutine s\nend subroutine\nx = 1\nend", 4, 14),
    ("subroutine s\nend subroutine\nend", 1, 14),
    ("end module", 1, 14),
    ("module m\nend program\nend", 2, 14),
    ("end\nend", 2, 14),
    ("end\nx = 1", 2, 14),
    ("do\nend", 2, 14),
    (
        "if (a) then\ncontains\nsubroutine s\nend subroutine\nend",
        2,
        14,
    ),
    ("n: if (a) then\nend do n", 2, 14),
];

/// Names that differ from that of the opening: rule 15.
const NAMES: [(&str, u32, u8); 15] = [
    ("n: do\nend do m\nend", 2, 15),
    ("do\nend do n\nend", 2, 15),
    ("n: if (a) then\nelse m\nend if n\nend", 2, 15),
    ("n: if (a) then\nelse if (b) then m\nend if\nend", 2, 15),
    ("if (a) then\nend if n\nend", 2, 15),
    ("n: select case (i)\ncase (1) m\nend select\nend", 2, 15),
    ("n: select case (i)\ncase default m\nend select\nend", 2, 15),
    ("select case (i)\nend select n\nend", 2, 15),
    ("program p\nend program q", 2, 15),
    ("end program p", 1, 15),
    ("module m\nend module n\nend", 2, 15),
    ("contains\nsubroutine s\nend subroutine t\nend", 3, 15),
    ("contains\nfunction f()\nend function g\nend", 3, 15),
    ("n: do\nend do m\nexit\nend", 2, 15),
    ("contains\nsubroutine s\nend subroutine t", 3, 15),
];

/// Main programs that don't end: rule 17, on the line behind the last line feed.
const CUT_OFF: [(&str, u32, u8); 10] = [
    ("", 1, 17),
    ("\n\n", 3, 17),
    ("! nothing", 1, 17),
    ("program p", 1, 17),
    ("program p\n", 2, 17),
    ("module m\nend", 2, 17),
    ("do\nend do\n", 3, 17),
    ("do\n", 2, 17),
    ("contains", 1, 17),
    ("x = 1\ncontains\nsubroutine s\nend subroutine\n", 5, 17),
];

#[test]
fn nests(rt: HostRuntime) -> Result<(), Fail> {
    assert_eq!(rt; first_wrong(rt.alloc(), &NESTING)?, None);
    Ok(())
}

#[test]
fn out_of_place(rt: HostRuntime) -> Result<(), Fail> {
    assert_eq!(rt; first_wrong(rt.alloc(), &OUT_OF_PLACE)?, None);
    Ok(())
}

#[test]
fn names_at_ends(rt: HostRuntime) -> Result<(), Fail> {
    assert_eq!(rt; first_wrong(rt.alloc(), &NAMES)?, None);
    Ok(())
}

#[test]
fn cut_off(rt: HostRuntime) -> Result<(), Fail> {
    assert_eq!(rt; first_wrong(rt.alloc(), &CUT_OFF)?, None);
    Ok(())
}

/// This inside of so many blocks, each opened on a line of its own.
fn inside(
    alloc: Global,
    opening: &str,
    blocks: usize,
    text: &str,
    end: &str,
) -> Result<String, PhaseError> {
    let mut out = String::new(alloc);
    for _ in 0..blocks {
        out.push_str(opening)?;
    }
    out.push_str(text)?;
    for _ in 0..blocks {
        out.push_str(end)?;
    }
    out.push_str("end\n")?;
    Ok(out)
}

/// The line and the rule that this breaks inside of so many DO blocks.
fn in_loops(alloc: Global, blocks: usize, text: &str) -> Result<(u32, u8), PhaseError> {
    let source = inside(alloc, "do\n", blocks, text, "end do\n")?;
    broken_by(alloc, source.as_str())
}

/// What breaks a rule inside of 64 DO blocks, and what doesn't.
const IN_MOST_LOOPS: [(&str, u32, u8); 12] = [
    ("", 0, 0),
    ("exit\n", 0, 0),
    ("where (m) a = 1\n", 0, 0),
    ("forall (i = 1:2) a(i) = 1\n", 0, 0),
    ("if (a) exit\n", 0, 0),
    ("do\nend do\n", 65, 16),
    ("if (a) then\nend if\n", 65, 16),
    ("select case (i)\nend select\n", 65, 16),
    ("where (m)\nend where\n", 65, 16),
    ("forall (i = 1:2)\nend forall\n", 65, 16),
    ("n: do; exit m\nend do\n", 65, 14),
    ("n: do; end do m\n", 65, 15),
];

/// The number of the first row that breaks another rule inside of 64 DO blocks than the one beside it, or on another line.
fn first_wrong_in_loops(
    alloc: Global,
    rows: &[(&str, u32, u8)],
) -> Result<Option<usize>, PhaseError> {
    for (number, (text, line, rule)) in rows.iter().enumerate() {
        let (broken_line, broken_rule) = in_loops(alloc, 64, text)?;
        if broken_line != *line || broken_rule != *rule {
            return Ok(Some(number));
        }
    }
    Ok(None)
}

#[test]
fn open_blocks(rt: HostRuntime) -> Result<(), Fail> {
    assert_eq!(rt; first_wrong_in_loops(rt.alloc(), &IN_MOST_LOOPS)?, None);
    Ok(())
}

#[test]
fn open_where_blocks(rt: HostRuntime) -> Result<(), Fail> {
    let few = inside(rt.alloc(), "where (m)\n", 64, "a = 1\n", "end where\n")?;
    assert_eq!(rt; broken_by(rt.alloc(), few.as_str())?, (0, 0));
    let many = inside(rt.alloc(), "where (m)\n", 65, "", "end where\n")?;
    assert_eq!(rt; broken_by(rt.alloc(), many.as_str())?, (65, 16));
    Ok(())
}
