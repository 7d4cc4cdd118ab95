//! What `run` answers on texts, inputs, words and failing devices.
use crate::command_lines::{
    Came, Failing, carried_out, first_no_usage, first_not_failed, first_not_refused, over_failing,
};
use std::alloc::{AllocError, Global};
use std::test::Fail;

/// A text of one function with these lines.
fn text_of(alloc: Global, lines: &str) -> Result<String, AllocError> {
    let mut text = String::from_str(alloc, "/* LoopC 1 */\nvoid f0() {\n")?;
    text.push_str(lines)?;
    text.push_str("}\n")?;
    Ok(text)
}

const FOREVER: &str = "while (1) {\nf_put_int(7);\nf_record();\n}\n";

/// The lines of a program, its input; the exit code, the output and the note.
type Done = (&'static str, &'static str, u8, &'static str, &'static str);

const PROGRAMS: [Done; 12] = [
    ("", "", 0, "", ""),
    ("f_put_int(2);\nf_record();\n", "", 0, " 2\n", ""),
    ("f_record();\n", "", 0, "\n", ""),
    ("f_put_int(2);\n", "", 0, "", ""),
    (
        "b0 = f_new(3);\nfor (k1 = 0; k1 < 3; k1 = k1 + 1) {\nb0[k1] = k1;\n}\nfor (k1 = 3 - 1; k1 >= 0; k1 = k1 - 1) {\ni0 = b0[k1];\nf_put_int(i0);\n}\nf_record();\n",
        "",
        0,
        " 2 1 0\n",
        "",
    ),
    (
        "f_at(4);\nf_put_log(1);\nf_record();\nf_fault(1);\n",
        "",
        3,
        " T\n",
        "f95a: fault F1 at line 4\n",
    ),
    ("f_fault(15);\n", "", 3, "", "f95a: fault F15 at line 0\n"),
    ("b0[0] = 1;\n", "", 5, "", "f95a: stuck S2\n"),
    (
        "i0 = f_take(0);\ni1 = f_take(1);\nf_put_int(i0);\nf_put_int(i1);\nf_record();\nf_skip();\ni0 = f_more();\nf_put_int(i0);\nf_record();\n",
        "12, -3 rest\nx",
        0,
        " 12 -3\n 1\n",
        "",
    ),
    (
        "i0 = f_look(0);\nf_put_int(i0);\nf_record();\n",
        "",
        0,
        " 1\n",
        "",
    ),
    ("f_stop();\nf_fault(1);\n", "", 0, "", ""),
    (
        "i4294967295 = 5;\nf_put_int(i4294967295);\nf_record();\n",
        "",
        0,
        " 5\n",
        "",
    ),
];

fn first_not_done(alloc: Global, rows: &[Done]) -> Result<Option<&'static str>, AllocError> {
    for (lines, input, code, out, note) in rows {
        let text = text_of(alloc, *lines)?;
        let came = carried_out(alloc, &["run", "p"], text.as_bytes(), input.as_bytes())?;
        if !came.is(*code, out.as_bytes(), *note) {
            return Ok(Some(*lines));
        }
    }
    Ok(None)
}

#[test]
fn programs_do_their_work(rt: HostRuntime) -> Result<(), Fail> {
    assert_eq!(rt; first_not_done(rt.alloc(), &PROGRAMS)?, None);
    Ok(())
}

const SOURCES: [(&str, &str); 11] = [
    (
        "program p; integer :: a(3); a = 2; print *, a; end",
        " 2 2 2\n",
    ),
    (
        "program p; integer :: a(2), b(2); a = 2147483647; b = a + 1 - a * a; print *, a, b; print *, b; end",
        " 2147483647 2147483647 2147483647 2147483647\n 2147483647 2147483647\n",
    ),
    ("program p; integer :: a(0); print *, a; end", "\n"),
    ("program p; end", ""),
    ("program p; integer :: a(2); print *, a; end", " 0 0\n"),
    (
        "program p; integer :: a(3), b(3); b = 7; a = b * b - 50; print *, a, b; end",
        " -1 -1 -1 7 7 7\n",
    ),
    (
        "program p; integer :: a(1); a = 65536 * 65536 * 65536 * 65536 + 3; print *, a; end",
        " 3\n",
    ),
    (
        "program p; integer :: a(1); a = 2147483647 * 2147483647 * 2147483647; print *, a; end",
        " 2147483647\n",
    ),
    (
        "program p; integer :: a(2); a = 3; a = a + a * a - 2 * a; print *, a; a = a - 7; print *, a, a; end",
        " 6 6\n -1 -1 -1 -1\n",
    ),
    (
        "program p; integer :: a(1), b(2); b = 1 - 2 - 3; a = 10 - 2 * 3 * 4; print *, b, a; print *, a, b; end",
        " -4 -4 -14\n -14 -4 -4\n",
    ),
    (
        "PROGRAM Sums ! of rows\nINTEGER :: A(2), &\n  b(2)\na = 1 + &\n  & 2 ! three\n\nB = A*A-A\nPRINT *, a; print*,b\nEND PROGRAM sums\n",
        " 3 3\n 6 6\n",
    ),
];

/// Whether what is built of a source prints this, with any number of turns that will do.
fn builds_and_runs(alloc: Global, source: &str, out: &str) -> Result<bool, AllocError> {
    let built = carried_out(alloc, &["build", "p"], source.as_bytes(), b"")?;
    let text = built.out();
    let plain = carried_out(alloc, &["run", "p"], text, b"left alone")?;
    let nines = "99999999999999999999999999999999999999";
    let limited = carried_out(alloc, &["run", "p", "--turns", nines], text, b"left alone")?;
    Ok(built.code == 0 && plain.is(0, out.as_bytes(), "") && limited.is(0, out.as_bytes(), ""))
}

fn first_not_built_and_run(
    alloc: Global,
    rows: &[(&'static str, &'static str)],
) -> Result<Option<&'static str>, AllocError> {
    for (source, out) in rows {
        if !builds_and_runs(alloc, *source, *out)? {
            return Ok(Some(*source));
        }
    }
    Ok(None)
}

#[test]
fn what_is_built_is_run(rt: HostRuntime) -> Result<(), Fail> {
    assert_eq!(rt; first_not_built_and_run(rt.alloc(), &SOURCES)?, None);
    Ok(())
}

const TURNS: [(&str, &str); 4] = [
    ("0", ""),
    ("1", " 7\n"),
    ("3", " 7\n 7\n 7\n"),
    ("00000000000000000000000000000000000003", " 7\n 7\n 7\n"),
];

fn first_not_limited(
    alloc: Global,
    rows: &[(&'static str, &'static str)],
) -> Result<Option<&'static str>, AllocError> {
    let text = text_of(alloc, FOREVER)?;
    for (turns, out) in rows {
        let words = ["run", "p", "--turns", *turns];
        let came = carried_out(alloc, &words, text.as_bytes(), b"")?;
        if !came.is(6, out.as_bytes(), "f95a: turn limit\n") {
            return Ok(Some(*turns));
        }
    }
    Ok(None)
}

#[test]
fn turns_are_counted(rt: HostRuntime) -> Result<(), Fail> {
    assert_eq!(rt; first_not_limited(rt.alloc(), &TURNS)?, None);
    Ok(())
}

const OTHER_TEXTS: [(&str, &str); 3] = [
    (
        "/* LoopC 1 */\nvoid f0() {\nwhile (1) {\nf_put_int(7);\nf_record();\n",
        "f95a: text refused at line 6\n",
    ),
    ("", "f95a: text refused at line 1\n"),
    (
        "/* LoopC 1 */\nvoid f0() {\n}",
        "f95a: text refused at line 3\n",
    ),
];

#[test]
fn other_texts_are_refused(rt: HostRuntime) -> Result<(), Fail> {
    assert_eq!(rt;
        first_not_refused(rt.alloc(), &["run", "p"], 4, &OTHER_TEXTS)?,
        None
    );
    Ok(())
}

const OTHER_WORDS: [&[&str]; 11] = [
    &["run"],
    &["run", "a", "b"],
    &["run", "a", "--turns"],
    &["run", "a", "--turns", ""],
    &["run", "a", "--turns", "x"],
    &["run", "a", "--turns", "+1"],
    &[
        "run",
        "a",
        "--turns",
        "100000000000000000000000000000000000000",
    ],
    &["run", "a", "--turn", "1"],
    &["run", "a", "--turns", "1", "--turns", "1"],
    &["build", "a", "--turns", "3"],
    &["--turns=3", "build", "a"],
];

#[test]
fn other_words_to_run_are_usage(rt: HostRuntime) -> Result<(), Fail> {
    let file = b"/* LoopC 1 */\nvoid f0() {\n}\n";
    assert_eq!(rt; first_no_usage(rt.alloc(), &OTHER_WORDS, file)?, None);
    Ok(())
}

const ONE: &[u8] = b"/* LoopC 1 */\nvoid f0() {\nf_put_int(1);\nf_record();\n}\n";

const NO_TEXT: &[u8] = b"/* LoopC 1 */\nvoid f0() {\nf_put_int(1);\nf_record();\n";

/// A file that is run on an input of so many blanks.
fn on_blanks(alloc: Global, file: &[u8], blanks: usize) -> Result<Came, AllocError> {
    let mut input = Vec::new(alloc);
    input.resize(blanks, b' ')?;
    carried_out(alloc, &["run", "p"], file, input.as_slice())
}

#[test]
fn an_input_may_be_too_long(rt: HostRuntime) -> Result<(), Fail> {
    let most = 1 << 24;
    assert!(rt; on_blanks(rt.alloc(), ONE, most)?.is(0, b" 1\n", ""));
    assert!(rt; on_blanks(rt.alloc(), ONE, most + 1)?.is(7, b"", "f95a: input too long\n"));
    let no_text = "f95a: text refused at line 5\n";
    assert!(rt; on_blanks(rt.alloc(), NO_TEXT, most + 1)?.is(4, b"", no_text));
    Ok(())
}

const NO_LOAD: Failing = Failing {
    loads: &[],
    takes: &[1],
    puts: &[1],
    told: &[],
};

#[test]
fn what_is_no_text_takes_no_input(rt: HostRuntime) -> Result<(), Fail> {
    let mut came = over_failing(rt.alloc(), &["run", "p"], NO_TEXT, b"7", NO_LOAD)?;
    assert!(rt; came.is(4, b"", "f95a: text refused at line 5\n"));
    assert!(rt; came.took_nothing() && came.put_nothing());
    Ok(())
}

/// Words, and the name of the file that isn't loaded, where there is none but `p`.
const OPERANDS: [(&[&str], &str); 8] = [
    (&["build", "q"], "q"),
    (&["run", "a.loop"], "a.loop"),
    (&["run", "", "--turns", "3"], ""),
    (&["run", "P", "--turns", "3"], "P"),
    (&["build", "p "], "p "),
    (&["--turns", "3", "run", "q"], "q"),
    (&["run", "--turns=3", "--", "-p"], "-p"),
    (&["build", "-"], "-"),
];

fn first_not_named(
    alloc: Global,
    rows: &[(&[&str], &'static str)],
) -> Result<Option<&'static str>, AllocError> {
    for (words, name) in rows {
        let came = carried_out(alloc, *words, ONE, b"")?;
        if !came.is(8, b"", "f95a: read fault\n") || came.failed() != *name {
            return Ok(Some(*name));
        }
    }
    Ok(None)
}

#[test]
fn a_file_that_is_not_loaded_is_named(rt: HostRuntime) -> Result<(), Fail> {
    assert_eq!(rt; first_not_named(rt.alloc(), &OPERANDS)?, None);
    let came = carried_out(rt.alloc(), &["run", "p"], ONE, b"")?;
    assert!(rt; came.code == 0 && came.failed().is_empty());
    Ok(())
}

/// The put that fails, having passed three bytes, what comes of that, and what is written then.
type FailingPut = (&'static [u64], u8, &'static str, &'static str);

const FAILING_PUTS: [FailingPut; 4] = [
    (&[1], 9, " 1 ", "f95a: write fault\n"),
    (&[2], 9, " 1 2\n\n", "f95a: write fault\n"),
    (&[3], 9, " 1 2\n\n 3 ", "f95a: write fault\n"),
    (&[4], 0, " 1 2\n\n 3 4 5\n", ""),
];

const RECORDS: &[u8] =
    b"/* LoopC 1 */\nvoid f0() {\nf_put_int(1);\nf_put_int(2);\nf_record();\nf_record();\nf_put_int(3);\nf_put_int(4);\nf_put_int(5);\nf_record();\n}\n";

fn first_not_one_put(alloc: Global, rows: &[FailingPut]) -> Result<Option<usize>, AllocError> {
    for (row, (puts, code, out, note)) in rows.iter().enumerate() {
        let failing = Failing {
            loads: &[],
            takes: &[],
            puts: *puts,
            told: &[],
        };
        let came = over_failing(alloc, &["run", "p"], RECORDS, b"", failing)?;
        if !came.is(*code, out.as_bytes(), *note) {
            return Ok(Some(row));
        }
    }
    Ok(None)
}

#[test]
fn each_record_is_one_put(rt: HostRuntime) -> Result<(), Fail> {
    assert_eq!(rt; first_not_one_put(rt.alloc(), &FAILING_PUTS)?, None);
    Ok(())
}

/// Calls that fail; the exit code, the output and the notes.
const FAILING: [(Failing, u8, &str, &str); 6] = [
    (
        Failing {
            loads: &[1],
            takes: &[],
            puts: &[],
            told: &[],
        },
        8,
        "",
        "f95a: read fault\n",
    ),
    (
        Failing {
            loads: &[],
            takes: &[1],
            puts: &[],
            told: &[],
        },
        8,
        "",
        "f95a: read fault\n",
    ),
    (
        Failing {
            loads: &[],
            takes: &[3],
            puts: &[],
            told: &[],
        },
        8,
        "",
        "f95a: read fault\n",
    ),
    (
        Failing {
            loads: &[],
            takes: &[],
            puts: &[1],
            told: &[],
        },
        9,
        " 2 ",
        "f95a: write fault\n",
    ),
    (
        Failing {
            loads: &[],
            takes: &[1],
            puts: &[],
            told: &[1],
        },
        9,
        "",
        "f95a:",
    ),
    (
        Failing {
            loads: &[2],
            takes: &[5],
            puts: &[2],
            told: &[1],
        },
        0,
        " 2 2 2\n",
        "",
    ),
];

/// It prints ` 2 2 2`.
const TWOS: &[u8] =
    b"/* LoopC 1 */\nvoid f0() {\nf_put_int(2);\nf_put_int(2);\nf_put_int(2);\nf_record();\n}\n";

#[test]
fn devices_that_fail_in_a_run_are_told(rt: HostRuntime) -> Result<(), Fail> {
    assert_eq!(rt;
        first_not_failed(rt.alloc(), &["run", "p"], TWOS, b"1 2", &FAILING)?,
        None
    );
    Ok(())
}
