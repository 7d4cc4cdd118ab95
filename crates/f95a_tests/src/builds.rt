//! What `build` answers on sources, words and failing devices.
use crate::command_lines::{
    Came, Failing, carried_out, first_no_usage, first_not_failed, first_not_refused, over_failing,
};
use f95a_core::{Status, code, compile};
use loop_text::print;
use std::alloc::{AllocError, Global};
use std::test::Fail;

const ACCEPTED: [&str; 11] = [
    "program p; integer :: a(3); a = 2; print *, a; end",
    "PROGRAM p\nInteger::a(3),B(3)\na=1+2*b-A*a\nprint*,A,b\n\tend\t\n;;\n",
    "program p\ninteger :: a(0)\ninteger :: z_9(16777216)\na = 007\nprint *, a, a\nend",
    "program a\ninteger :: a(1)\na = 2147483647 + 1\nend\n",
    "program p;end",
    "end",
    "program p\r\ninteger :: a(3)\r\nend\r\n",
    "program p ! the sum\n! of nothing\nend program p",
    "PROGRAM P\nINTEGER A(3)\nA = 1 + & ! one\n\n! and\n 2\nPRINT *, A\nEND PROGRAM p\n",
    "program pro&\n&gram1\nint&\n&eger :: a(3)\na = 1&\n&2\nend program program1",
    "integer :: p(3)\nprint *, p\nend program",
];

/// Whether the source is built, with no note.
fn is_built(alloc: Global, source: &str) -> Result<bool, AllocError> {
    let came = carried_out(alloc, &["build", "p"], source.as_bytes(), b"")?;
    let out = came.out();
    Ok(
        came.code == 0
            && came.notes().is_empty()
            && out.starts_with(b"/* LoopC 1 */\nvoid f0() {\n")
            && out.ends_with(b"}\n"),
    )
}

fn first_not_built(
    alloc: Global,
    sources: &[&'static str],
) -> Result<Option<&'static str>, AllocError> {
    for source in sources {
        if !is_built(alloc, *source)? {
            return Ok(Some(*source));
        }
    }
    Ok(None)
}

#[test]
fn accepted_sources_are_built(rt: HostRuntime) -> Result<(), Fail> {
    assert_eq!(rt; first_not_built(rt.alloc(), &ACCEPTED)?, None);
    Ok(())
}

/// The form, or something in it, isn't built yet.
const FORM: &str = "f95a: refused: phase 3, line 1, rule P47\n";

const REFUSED: [(&str, &str); 32] = [
    (
        "program p\nx = 1\nend\n",
        "f95a: refused: phase 4, line 2, rule P19\n",
    ),
    (
        "program p; integer :: a(2)\n\na = 1\nprint *, a, b; c = 1\nend",
        "f95a: refused: phase 4, line 4, rule P19\n",
    ),
    // text
    (
        "program p\ninteger :: x = 2147483648\nend",
        "f95a: refused: phase 1, line 2, rule P8\n",
    ),
    (
        "program p; integer :: a(2); a = 2147483648; end",
        "f95a: refused: phase 1, line 1, rule P8\n",
    ),
    (
        "program p; integer :: a2345678901234567890123456789012(2); end",
        "f95a: refused: phase 1, line 1, rule P7\n",
    ),
    (
        "program p\0; end",
        "f95a: refused: phase 1, line 1, rule P2\n",
    ),
    (
        "program p\n\nprint *, 'a\nend",
        "f95a: refused: phase 1, line 3, rule P5\n",
    ),
    (
        "program p\na = &\n",
        "f95a: refused: phase 1, line 2, rule P6\n",
    ),
    // forms
    (
        "program p\nreal :: x\nend",
        "f95a: refused: phase 2, line 2, rule P12\n",
    ),
    (
        "programp; end",
        "f95a: refused: phase 2, line 1, rule P11\n",
    ),
    (
        "program end; end",
        "f95a: refused: phase 2, line 1, rule P11\n",
    ),
    (
        "program p; integer : : a(2); end",
        "f95a: refused: phase 2, line 1, rule P11\n",
    ),
    (
        "program p; integer :: a(2)\na = 1 +\nreal :: x\nend",
        "f95a: refused: phase 2, line 2, rule P11\n",
    ),
    // nesting
    ("", "f95a: refused: phase 3, line 1, rule P17\n"),
    ("program p", "f95a: refused: phase 3, line 1, rule P17\n"),
    (
        "program p\ninteger :: a(2)\na = 1\n",
        "f95a: refused: phase 3, line 4, rule P17\n",
    ),
    (
        "program p\ndo\nend do\n\n! end\n",
        "f95a: refused: phase 3, line 6, rule P17\n",
    ),
    (
        "program p; end\nend",
        "f95a: refused: phase 3, line 2, rule P14\n",
    ),
    (
        "program p; integer :: a(2); a = 1\ninteger :: b(2); end",
        "f95a: refused: phase 3, line 2, rule P14\n",
    ),
    (
        "program p\nend program q",
        "f95a: refused: phase 3, line 2, rule P15\n",
    ),
    (
        "integer :: a(2)\nend program p",
        "f95a: refused: phase 3, line 2, rule P15\n",
    ),
    // what isn't built yet
    ("program p; integer :: a(2), a(2); end", FORM),
    ("program p; integer :: a(2), b(3); a = b; end", FORM),
    ("program p; integer :: a(16777217); end", FORM),
    ("program p; integer :: a(2); a = -1; end", FORM),
    ("program p; integer :: a(2); a = 1 ** 2; end", FORM),
    ("program p; integer :: a; end", FORM),
    ("program p; logical :: a(2); end", FORM),
    ("program p; implicit none; end", FORM),
    (
        "program p\ninteger :: a(2)\na = b\nif (.true.) a = 1\nend",
        "f95a: refused: phase 3, line 4, rule P47\n",
    ),
    (
        "module m\nend module m\nprogram p\nend",
        "f95a: refused: phase 3, line 1, rule P47\n",
    ),
    (
        "program p\ncontains\nsubroutine s()\nend subroutine\nend",
        "f95a: refused: phase 3, line 2, rule P47\n",
    ),
];

#[test]
fn other_sources_are_refused(rt: HostRuntime) -> Result<(), Fail> {
    assert_eq!(rt;
        first_not_refused(rt.alloc(), &["build", "p"], 1, &REFUSED)?,
        None
    );
    Ok(())
}

/// `a = ((1))`, with so many brackets.
fn brackets(alloc: Global, count: usize) -> Result<String, AllocError> {
    let mut source = String::from_str(alloc, "integer :: a(3)\na = ")?;
    for _ in 0..count {
        source.push_str("(")?;
    }
    source.push_str("1&\n&")?;
    for _ in 0..count {
        source.push_str(")")?;
    }
    source.push_str("\nend\n")?;
    Ok(source)
}

/// So many blocks, one in the other, each begun on a line of its own.
fn blocks(alloc: Global, count: usize) -> Result<String, AllocError> {
    let mut source = String::from_str(alloc, "program p\n")?;
    for _ in 0..count {
        source.push_str("do\n")?;
    }
    for _ in 0..count {
        source.push_str("end do\n")?;
    }
    source.push_str("end\n")?;
    Ok(source)
}

fn is_refused(alloc: Global, source: &str, note: &str) -> Result<bool, AllocError> {
    Ok(carried_out(alloc, &["build", "p"], source.as_bytes(), b"")?.is(1, b"", note))
}

/// So many brackets, or blocks, and what they are refused for.
const BRACKETS: [(usize, &str); 2] = [
    (64, "f95a: refused: phase 3, line 2, rule P47\n"),
    (65, "f95a: refused: phase 2, line 2, rule P13\n"),
];

const BLOCKS: [(usize, &str); 2] = [
    (64, "f95a: refused: phase 3, line 2, rule P47\n"),
    (65, "f95a: refused: phase 3, line 66, rule P16\n"),
];

fn first_not_counted(alloc: Global) -> Result<Option<usize>, AllocError> {
    for (count, note) in &BRACKETS {
        if !is_refused(alloc, brackets(alloc, *count)?.as_str(), *note)? {
            return Ok(Some(*count));
        }
    }
    for (count, note) in &BLOCKS {
        if !is_refused(alloc, blocks(alloc, *count)?.as_str(), *note)? {
            return Ok(Some(*count));
        }
    }
    Ok(None)
}

#[test]
fn brackets_and_blocks_are_counted(rt: HostRuntime) -> Result<(), Fail> {
    assert_eq!(rt; first_not_counted(rt.alloc())?, None);
    Ok(())
}

const OTHER_WORDS: [&[&str]; 10] = [
    &[],
    &["build"],
    &["build", "a", "b"],
    &["Run", "a"],
    &["Build", "a"],
    &["a", "build"],
    &["report", "a"],
    &["trial", "1"],
    &["value", "a"],
    &["--help"],
];

#[test]
fn other_words_are_usage(rt: HostRuntime) -> Result<(), Fail> {
    assert_eq!(rt;
        first_no_usage(rt.alloc(), &OTHER_WORDS, b"program p; end")?,
        None
    );
    Ok(())
}

/// Calls that fail; the exit code, the output and the notes.
const FAILING: [(Failing, u8, &str, &str); 4] = [
    (
        Failing {
            loads: &[1],
            takes: &[],
            puts: &[],
            told: &[],
        },
        8,
        "",
        "f95a: read fault\n",
    ),
    (
        Failing {
            loads: &[],
            takes: &[],
            puts: &[1],
            told: &[],
        },
        9,
        "/* ",
        "f95a: write fault\n",
    ),
    (
        Failing {
            loads: &[1],
            takes: &[],
            puts: &[],
            told: &[1],
        },
        9,
        "",
        "f95a:",
    ),
    (
        Failing {
            loads: &[],
            takes: &[],
            puts: &[1],
            told: &[1],
        },
        9,
        "/* ",
        "f95a:",
    ),
];

const SHORT: &[u8] = b"program p; integer :: a(3); a = 2; print *, a; end";

#[test]
fn failing_devices_are_told(rt: HostRuntime) -> Result<(), Fail> {
    assert_eq!(rt;
        first_not_failed(rt.alloc(), &["build", "p"], SHORT, b"", &FAILING)?,
        None
    );
    Ok(())
}

/// Calls that would fail, but come too late.
const LATE: Failing = Failing {
    loads: &[2],
    takes: &[],
    puts: &[2],
    told: &[1],
};

#[test]
fn what_fails_too_late_is_not_told(rt: HostRuntime) -> Result<(), Fail> {
    let came = over_failing(rt.alloc(), &["build", "p"], SHORT, b"", LATE)?;
    assert!(rt; came.code == 0 && came.notes().is_empty());
    Ok(())
}

/// A source with so many assignments.
fn assignments(alloc: Global, count: usize) -> Result<String, AllocError> {
    let mut source = String::from_str(alloc, "program p\ninteger :: a(3), b(3)\n")?;
    for _ in 0..count {
        source.push_str("a = b * 2 + a\n")?;
    }
    source.push_str("print *, a\nend\n")?;
    Ok(source)
}

/// Whether the put failed, and a front of the whole was written, longer than that put's piece.
fn is_cut_off(whole: &Came, cut: &Came) -> bool {
    let (whole, front) = (whole.out(), cut.out());
    cut.is(9, front, "f95a: write fault\n")
        && front.len() > 3
        && front.len() < whole.len()
        && whole.starts_with(front)
        && whole.ends_with(b"}\n")
}

const SECOND_PUT: Failing = Failing {
    loads: &[],
    takes: &[],
    puts: &[2],
    told: &[],
};

#[test]
fn a_long_text_is_cut_off_where_a_later_put_fails(rt: HostRuntime) -> Result<(), Fail> {
    let source = assignments(rt.alloc(), 1000)?;
    let words = ["build", "p"];
    let whole = carried_out(rt.alloc(), &words, source.as_bytes(), b"")?;
    assert!(rt; whole.code == 0);
    let cut = over_failing(rt.alloc(), &words, source.as_bytes(), b"", SECOND_PUT)?;
    assert!(rt; is_cut_off(&whole, &cut));
    Ok(())
}

const CODES: [(Status, u8); 7] = [
    (Status::Done, 0),
    (Status::Usage, 2),
    (Status::TurnLimit, 6),
    (Status::InputTooLong, 7),
    (Status::ReadFault, 8),
    (Status::WriteFault, 9),
    (Status::Memory, 10),
];

fn first_wrong_code(rows: &[(Status, u8)]) -> Option<u8> {
    for (status, want) in rows {
        if code(status) != *want {
            return Some(*want);
        }
    }
    None
}

#[test]
fn each_status_has_its_code(rt: HostRuntime) {
    assert_eq!(rt; first_wrong_code(&CODES), None);
}

#[test]
fn a_source_is_compiled_and_printed(rt: HostRuntime) -> Result<(), Fail> {
    let source = b"program p; integer :: a(3); a = a - 2 * a; print *, a; end";
    let program = compile(rt.alloc(), source)?;
    let text = print(rt.alloc(), &program)?;
    let built = carried_out(rt.alloc(), &["build", "p"], source, b"")?;
    assert!(rt; text.as_slice() == built.out());
    Ok(())
}
