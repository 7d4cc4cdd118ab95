//! What the machine makes of LoopC: each row of the grammar, calls, faults, each stuck state, and long loops.
use io_edge::{MemorySink, Sink};
use loop_machine::{End, Machine};
use loop_text::{NoText, read};
use std::alloc::{AllocError, Global};
use std::test::Fail;

pub const PLENTY: u128 = 1_000_000;

/// The machine of a text, at its start.
fn machine_of(alloc: Global, text: &[u8], input: &[u8]) -> Result<Machine, Fail> {
    match read(alloc, text) {
        Ok(program) => Ok(Machine::new(alloc, program, input.to_vec(alloc)?)?),
        Err(NoText::At { .. }) => Err(Fail::new("no text")),
        Err(NoText::Memory) => Err(Fail::new("out of memory")),
    }
}

/// The text of a program: the lines of the main function, and the functions behind it.
pub fn text_of(alloc: Global, main: &str, others: &str) -> Result<Vec<u8>, AllocError> {
    let mut text = b"/* LoopC 1 */\nvoid f0() {\n".to_vec(alloc)?;
    text.extend_from_slice(main.as_bytes())?;
    text.extend_from_slice(b"}\n")?;
    text.extend_from_slice(others.as_bytes())?;
    Ok(text)
}

/// A run with so many turns more, what it comes to, and what is written then in all.
#[derive(Clone, Copy)]
pub struct Part {
    pub turns: u128,
    pub end: End,
    pub written: &'static [u8],
}

/// A run with so many turns more. It promises nothing, so that its callers are proved without what `run` promises.
fn run_on(machine: &mut Machine, sink: &mut MemorySink, turns: u128) -> End {
    machine.run(turns, sink)
}

fn is_as_told(machine: &mut Machine, sink: &mut MemorySink, part: Part) -> bool {
    run_on(machine, sink, part.turns) == part.end && sink.written() == part.written
}

/// Whether the parts of a program's run come out as told, over a sink of which some puts fail, and how many did.
pub fn goes(
    alloc: Global,
    text: &[u8],
    input: &[u8],
    failing: &[u64],
    parts: &[Part],
    faults: u64,
) -> Result<bool, Fail> {
    let mut machine = machine_of(alloc, text, input)?;
    let mut sink = MemorySink::new(alloc, Vec::from_slice(alloc, failing)?, 2);
    for part in parts {
        if !is_as_told(&mut machine, &mut sink, *part) {
            return Ok(false);
        }
    }
    Ok(sink.faults() == faults)
}

/// Of programs' main functions, the first that doesn't end within ample turns, having written this.
fn first_wrong(
    alloc: Global,
    cases: &[(&'static str, &'static str)],
    others: &str,
    input: &str,
) -> Result<Option<&'static str>, Fail> {
    for (main, written) in cases {
        let text = text_of(alloc, *main, others)?;
        let whole = Part {
            turns: PLENTY,
            end: End::Ended,
            written: written.as_bytes(),
        };
        if !goes(alloc, text.as_slice(), input.as_bytes(), &[], &[whole], 0)? {
            return Ok(Some(*main));
        }
    }
    Ok(None)
}

/// The lines of a main function, and what they write.
const ROWS: [(&str, &str); 42] = [
    // integers
    ("i1 = -7;\ni2 = i1;\nf_put_int(i2);\nf_record();\n", " -7\n"),
    ("i1 = 7 - 10;\nf_put_int(i1);\nf_record();\n", " -3\n"),
    ("i1 = 6 * -7;\nf_put_int(i1);\nf_record();\n", " -42\n"),
    (
        "i1 = -7 / 2;\ni2 = -7 % 2;\nf_put_int(i1);\nf_put_int(i2);\nf_record();\n",
        " -3 -1\n",
    ),
    (
        "i1 = 1 < 2;\ni2 = 2 <= 1;\ni3 = 2 == 2;\ni4 = 2 != 2;\nf_put_int(i1);\nf_put_int(i2);\nf_put_int(i3);\nf_put_int(i4);\nf_record();\n",
        " 1 0 1 0\n",
    ),
    (
        "i1 = 12 & 10;\ni2 = 12 | 10;\nf_put_int(i1);\nf_put_int(i2);\nf_record();\n",
        " 8 14\n",
    ),
    (
        "i1 = 9223372036854775807 + 1;\ni2 = i1 < 0;\nf_put_int(i2);\nf_put_int(i1);\nf_record();\n",
        " 1 0\n",
    ),
    (
        "i1 = f_wrap(2147483648);\ni2 = i1 < 0;\nf_put_int(i2);\nf_put_int(2147483648);\nf_record();\n",
        " 1 -2147483648\n",
    ),
    (
        "i1 = f_pow(3, 4);\ni2 = f_pow(-2, 31);\nf_put_int(i1);\nf_put_int(i2);\nf_record();\n",
        " 81 -2147483648\n",
    ),
    ("i1 = f_xor(12, 10);\nf_put_int(i1);\nf_record();\n", " 6\n"),
    (
        "s1 = \"abc\";\ni1 = f_len(s1);\ni2 = f_len(s2);\nf_put_int(i1);\nf_put_int(i2);\nf_record();\n",
        " 3 0\n",
    ),
    (
        "i1 = f_index(\"hello\", \"l\");\ni2 = f_index(\"ab\", \"\");\ni3 = f_index(\"ab\", \"c\");\nf_put_int(i1);\nf_put_int(i2);\nf_put_int(i3);\nf_record();\n",
        " 3 1 0\n",
    ),
    (
        "i1 = f_code(\"A\");\nf_put_int(i1);\nf_record();\n",
        " 65\n",
    ),
    (
        "i1 = f_cmp(\"a\", \"a \");\ni2 = f_cmp(\"b\", \"a\");\ni3 = f_cmp(\"\", \"!\");\nf_put_int(i1);\nf_put_int(i2);\nf_put_int(i3);\nf_record();\n",
        " 0 1 -1\n",
    ),
    (
        "b0 = f_new(4);\ni1 = f_size(b0);\ni2 = f_live(b0);\ni3 = f_live(b1);\nf_put_int(i1);\nf_put_int(i2);\nf_put_int(i3);\nf_record();\n",
        " 4 1 0\n",
    ),
    ("i1 = f_depth();\nf_put_int(i1);\nf_record();\n", " 0\n"),
    (
        "b0 = f_temp(2);\nb0[1] = 5;\ni1 = b0[1];\ni2 = b0[0];\nf_put_int(i1);\nf_put_int(i2);\nf_record();\n",
        " 5 0\n",
    ),
    ("f_put_log(0);\nf_put_log(-3);\nf_record();\n", " F T\n"),
    (
        "f_put_int(1);\nf_record();\nf_record();\nf_put_int(2);\n",
        " 1\n\n",
    ),
    (
        "i7 = k3;\nf_put_int(i7);\nf_put_int(i4000000000);\nf_record();\n",
        " 0 0\n",
    ),
    // texts and blocks
    (
        "f_put_text(\"ab\");\nf_put_text(\"c\");\nf_put_int(1);\nf_put_text(\"d\");\nf_record();\n",
        " abc 1 d\n",
    ),
    (
        "s1 = f_cat(\"ab\", \"cd\");\nf_put_text(s1);\nf_record();\n",
        " abcd\n",
    ),
    (
        "s1 = f_sub(\"hello\", 2, 4);\ns2 = f_sub(s1, 3, 2);\nf_put_text(s1);\nf_put_text(s2);\nf_record();\n",
        " ell\n",
    ),
    (
        "s1 = f_over(\"hello\", 2, \"XY\");\nf_put_text(s1);\nf_record();\n",
        " hXYlo\n",
    ),
    (
        "s1 = f_fit(\"abc\", 5);\ns2 = f_fit(\"abc\", 2);\nf_put_text(s1);\nf_put_text(s2);\nf_record();\n",
        " abc  ab\n",
    ),
    (
        "s1 = f_trim(\"ab  \");\nf_put_text(s1);\nf_put_text(\"|\");\nf_record();\n",
        " ab|\n",
    ),
    (
        "s1 = f_left(\"  ab\");\nf_put_text(s1);\nf_put_text(\"|\");\nf_record();\n",
        " ab  |\n",
    ),
    (
        "s1 = f_right(\"ab  \");\nf_put_text(s1);\nf_record();\n",
        "   ab\n",
    ),
    ("s1 = f_chr(66);\nf_put_text(s1);\nf_record();\n", " B\n"),
    (
        "c0 = f_new_text(2, 3);\nc0[1] = \"xyz\";\ns1 = c0[1];\ns2 = c0[0];\nf_put_text(s1);\nf_put_text(s2);\nf_put_text(\"|\");\nf_record();\n",
        " xyz   |\n",
    ),
    (
        "c0 = f_temp_text(1);\nc1 = f_copy_text(2);\ns1 = c0[0];\ni1 = f_len(s1);\ni2 = f_size(c1);\nf_put_int(i1);\nf_put_int(i2);\nf_record();\n",
        " 0 2\n",
    ),
    (
        "c0 = f_new_text(1, 0);\nc1 = c0;\nc1[0] = \"q\";\nf_grow(c0, 1);\ni1 = f_size(c1);\ns1 = c0[0];\nf_put_int(i1);\nf_put_text(s1);\nf_free(c1);\ni2 = f_live(c0);\nf_put_int(i2);\nf_record();\n",
        " 2 q 0\n",
    ),
    (
        "b0 = f_copy(2);\nb1 = b0;\nb2 = f_mark(1);\nb1[1] = 9;\nf_grow(b0, 2);\ni1 = b0[1];\ni2 = b0[3];\ni3 = f_size(b1);\nf_free(b1);\ni4 = f_live(b0);\ni5 = f_live(b2);\nf_put_int(i1);\nf_put_int(i2);\nf_put_int(i3);\nf_put_int(i4);\nf_put_int(i5);\nf_record();\n",
        " 9 0 4 0 1\n",
    ),
    // control
    (
        "if (1) {\nf_put_int(1);\n} else {\nf_put_int(2);\n}\nif (0) {\nf_put_int(3);\n} else {\nf_put_int(4);\n}\nif (0) {\nf_put_int(5);\n}\nf_record();\n",
        " 1 4\n",
    ),
    (
        "for (k1 = 0; k1 < 3; k1 = k1 + 1) {\nf_put_int(k1);\n}\nf_put_int(k1);\nf_record();\n",
        " 0 1 2 3\n",
    ),
    (
        "for (k1 = 3 - 1; k1 >= 0; k1 = k1 - 1) {\nf_put_int(k1);\n}\nf_put_int(k1);\nf_record();\n",
        " 2 1 0 -1\n",
    ),
    (
        "for (k1 = 0; k1 < 0; k1 = k1 + 1) {\nf_put_int(7);\n}\nfor (k2 = 0; k2 < k2; k2 = k2 + 1) {\nf_put_int(8);\n}\nfor (k3 = 0 - 1; k3 >= 0; k3 = k3 - 1) {\nf_put_int(9);\n}\nf_record();\n",
        "\n",
    ),
    (
        "while (1) {\ni1 = i1 + 1;\ni2 = i1 % 2;\nif (i2) {\ncontinue;\n}\ni3 = 5 < i1;\nif (i3) {\nif (i3) {\nbreak;\n} else {\nf_stop();\n}\n}\nf_put_int(i1);\n}\nf_put_text(\"end\");\nf_record();\n",
        " 2 4 end\n",
    ),
    (
        "for (k1 = 0; k1 < 4; k1 = k1 + 1) {\nfor (k2 = 0; k2 < 4; k2 = k2 + 1) {\ni1 = k1 < k2;\nif (0) {\n} else {\nif (i1) {\nbreak;\n}\n}\nf_put_int(k2);\n}\n}\nf_record();\n",
        " 0 0 1 0 1 2 0 1 2 3\n",
    ),
    (
        "f_put_int(1);\nf_record();\nreturn;\nf_put_int(2);\nf_record();\n",
        " 1\n",
    ),
    (
        "if (1) {\nwhile (1) {\nf_put_int(1);\nf_record();\nf_stop();\n}\n}\n",
        " 1\n",
    ),
    (
        "i0 = 2;\nfor (k1 = 0; k1 < i0; k1 = k1 + 1) {\ni0 = 4 - k1;\nf_put_int(k1);\n}\nf_record();\n",
        " 0 1 2\n",
    ),
];

#[test]
fn each_row_is_obeyed(rt: HostRuntime) -> Result<(), Fail> {
    assert_eq!(rt; first_wrong(rt.alloc(), &ROWS, "", "")?, None);
    Ok(())
}

const INPUT: [(&str, &str); 4] = [
    (
        "i1 = f_take(0);\ni2 = f_take(1);\ni3 = f_look(1);\nf_put_int(i1);\nf_put_int(i2);\nf_put_int(i3);\nf_record();\n",
        " 12 -5 2\n",
    ),
    (
        "f_skip();\ni1 = f_take(0);\ni2 = f_look(1);\ni3 = f_more();\nf_put_int(i1);\nf_put_int(i2);\nf_put_int(i3);\nf_record();\n",
        " 7 1 1\n",
    ),
    (
        "f_skip();\nf_skip();\nf_skip();\ni1 = f_more();\nf_put_int(i1);\nf_record();\n",
        " 0\n",
    ),
    (
        "i1 = f_look(0);\ni2 = f_look(0);\ni3 = f_take(0);\nf_put_int(i1);\nf_put_int(i2);\nf_put_int(i3);\nf_record();\n",
        " 0 0 12\n",
    ),
];

#[test]
fn input_is_taken(rt: HostRuntime) -> Result<(), Fail> {
    assert_eq!(rt;
        first_wrong(rt.alloc(), &INPUT, "", "12 , -5 x\n7\n")?,
        None
    );
    Ok(())
}

pub const FUNCTIONS: &str =
    "void f1(i0, s1, b2, c3) {\ni4 = f_depth();\nb2[0] = i0;\nc3[0] = s1;\nb5 = f_new(1);\nb2 = b5;\nf_put_int(i4);\nf_put_int(i9);\ni0 = 100;\n}\nvoid f2(i0) {\ni1 = i0 < 1;\nif (i1) {\nreturn;\n}\nf_put_int(i0);\ni2 = i0 - 1;\nf2(i2);\n}\nvoid f3() {\nf_at(9);\nf_fault(2);\n}\nvoid f4(b0) {\n}\nvoid f5() {\nwhile (1) {\nf_stop();\n}\n}\n";

const CALLS: [(&str, &str); 2] = [
    (
        "i0 = 7;\nb0 = f_new(1);\nc0 = f_new_text(1, 1);\nf1(i0, \"xy\", b0, c0);\ni1 = b0[0];\ns1 = c0[0];\nf_put_int(i0);\nf_put_int(i1);\nf_put_text(s1);\nf_record();\nf2(3);\nf_record();\n",
        " 1 0 7 7 xy\n 3 2 1\n",
    ),
    ("f5();\nf_put_int(1);\nf_record();\n", ""),
];

#[test]
fn functions_are_called(rt: HostRuntime) -> Result<(), Fail> {
    assert_eq!(rt; first_wrong(rt.alloc(), &CALLS, FUNCTIONS, "")?, None);
    Ok(())
}

/// The lines of a main function, and the number and the line of the fault that they come to.
const FAULTS: [(&str, u8, u32); 4] = [
    ("f_fault(1);\n", 1, 0),
    ("f_at(3);\nf_at(4);\nf_fault(15);\n", 15, 4),
    ("f_at(3);\nf3();\n", 2, 9),
    ("f_at(5);\nf2(0);\nf_fault(7);\n", 7, 5),
];

/// What a main function comes to, where nothing is written before.
fn silent_end(alloc: Global, main: &str, input: &[u8]) -> Result<Option<End>, Fail> {
    let text = text_of(alloc, main, FUNCTIONS)?;
    let mut machine = machine_of(alloc, text.as_slice(), input)?;
    let mut sink = MemorySink::new(alloc, Vec::new(alloc), 2);
    let end = run_on(&mut machine, &mut sink, PLENTY);
    Ok(only_if(sink.written().is_empty(), end))
}

fn only_if(silent: bool, end: End) -> Option<End> {
    if silent { Some(end) } else { None }
}

/// The number and the line of a fault, or zeros for another end.
fn fault_of(end: Option<End>) -> (u8, u32) {
    match end {
        Some(End::Fault { kind, line }) => (kind.number(), line.0),
        _ => (0, 0),
    }
}

fn first_not_faulted(
    alloc: Global,
    cases: &[(&'static str, u8, u32)],
) -> Result<Option<&'static str>, Fail> {
    for (main, number, line) in cases {
        if fault_of(silent_end(alloc, *main, b"")?) != (*number, *line) {
            return Ok(Some(*main));
        }
    }
    Ok(None)
}

#[test]
fn a_fault_has_the_line_of_its_call(rt: HostRuntime) -> Result<(), Fail> {
    assert_eq!(rt; first_not_faulted(rt.alloc(), &FAULTS)?, None);
    Ok(())
}

/// The lines of a main function, and the number of the stuck state that they come to.
const STUCK: [(&str, u8); 30] = [
    ("b0 = f_new(2);\ni1 = b0[2];\n", 1),
    ("b0 = f_new(2);\nb0[-1] = 0;\n", 1),
    ("c0 = f_temp_text(0);\ns1 = c0[0];\n", 1),
    ("i1 = b0[0];\n", 2),
    ("c0[0] = \"\";\n", 2),
    ("b0 = f_new(2);\nf_free(b0);\nb0[0] = 1;\n", 2),
    (
        "b0 = f_new(2);\nb1 = b0;\nf_free(b0);\ni1 = f_size(b1);\n",
        2,
    ),
    ("f_free(c0);\n", 2),
    ("b0 = b1;\n", 2),
    ("f4(b0);\n", 2),
    ("i1 = 1 / 0;\n", 3),
    ("i1 = 1 % i2;\n", 3),
    ("f0();\n", 4),
    ("f99();\n", 4),
    ("f2();\n", 4),
    ("f2(\"x\");\n", 4),
    ("f2(1, 2);\n", 4),
    ("b0 = f_new(-1);\n", 5),
    ("b0 = f_temp(16777217);\n", 5),
    ("c0 = f_new_text(1, 256);\n", 5),
    ("b0 = f_new(1);\nf_grow(b0, 16777216);\n", 5),
    ("c0 = f_temp_text(1);\nf_grow(c0, -1);\n", 5),
    ("s1 = f_sub(\"abc\", 0, 1);\n", 6),
    ("s1 = f_over(\"abc\", 3, \"xy\");\n", 6),
    ("i1 = f_code(\"\");\n", 6),
    ("s1 = f_chr(256);\n", 7),
    ("i1 = f_take(0);\n", 8),
    ("i1 = f_pow(2, -1);\n", 9),
    // the least number where several hold
    ("f2(b0, 1);\n", 2),
    ("f99(b0);\n", 2),
];

/// The number of a stuck state, or 0 for another end.
fn stuck_number(end: Option<End>) -> u8 {
    match end {
        Some(End::Stuck { why }) => why.number(),
        _ => 0,
    }
}

/// Of main functions, the first that doesn't come to the stuck state of its number.
fn first_not_stuck(
    alloc: Global,
    cases: &[(&'static str, u8)],
) -> Result<Option<&'static str>, Fail> {
    for (main, number) in cases {
        if stuck_number(silent_end(alloc, *main, b"x")?) != *number {
            return Ok(Some(*main));
        }
    }
    Ok(None)
}

#[test]
fn each_stuck_state_has_its_number(rt: HostRuntime) -> Result<(), Fail> {
    assert_eq!(rt; first_not_stuck(rt.alloc(), &STUCK)?, None);
    Ok(())
}

/// Loops of many turns over integers and cells, some with other lines among them.
/// What they come to was found by another reader of LoopC.
const SWEEPS: [(&str, &str); 12] = [
    (
        "b0 = f_new(40);\nfor (k1 = 0; k1 < 40; k1 = k1 + 1) {\ni0 = b0[k1];\ni0 = i0 + k1;\nb0[k1] = i0;\n}\ni1 = b0[39];\nf_put_int(i0);\nf_put_int(i1);\nf_put_int(k1);\nf_record();\n",
        " 39 39 40\n",
    ),
    (
        "i9 = 100;\nfor (k1 = 0; k1 < i9; k1 = k1 + 1) {\ni9 = i9 - 1;\ni0 = i0 + 1;\n}\nf_put_int(i0);\nf_put_int(i9);\nf_put_int(k1);\nf_record();\n",
        " 50 50 50\n",
    ),
    (
        "for (k1 = 0; k1 < 30; k1 = k1 + 1) {\ni2 = k1 * 1000000007;\ni2 = f_wrap(i2);\ni3 = i3 | i2;\ni4 = i2 % 1000;\ni5 = i5 + i4;\ni6 = i4 < 0;\ni7 = i7 + i6;\ni8 = i2;\n}\nf_put_int(i2);\nf_put_int(i3);\nf_put_int(i5);\nf_put_int(i7);\nf_put_int(i8);\nf_record();\n",
        " -1064770869 -257 149 14 -1064770869\n",
    ),
    (
        "b0 = f_new(900);\nfor (k2 = 0; k2 < 30; k2 = k2 + 1) {\ni1 = k2 * 30;\nfor (k1 = 0; k1 < k2; k1 = k1 + 1) {\ni2 = i1 + k1;\nb0[i2] = k2;\n}\n}\nfor (k1 = 0; k1 < 900; k1 = k1 + 1) {\ni3 = b0[k1];\ni4 = i4 * 7;\ni4 = i4 + i3;\ni4 = f_wrap(i4);\n}\nf_put_int(i4);\nf_put_int(k1);\nf_put_int(k2);\nf_record();\n",
        " -440505185 900 30\n",
    ),
    (
        "for (k1 = 0; k1 < 20; k1 = k1 + 1) {\ni70000 = i70000 + k1;\ni5 = k1;\n}\nf_put_int(i70000);\nf_put_int(i5);\nf_put_int(i69999);\nf_record();\n",
        " 190 19 0\n",
    ),
    (
        "b0 = f_new(16);\nb1 = b0;\nfor (k1 = 0; k1 < 16; k1 = k1 + 1) {\nb1[k1] = k1;\ni0 = b0[15];\ni0 = b0[k1];\ni1 = i1 + i0;\n}\nf_put_int(i1);\nf_put_int(i0);\nf_record();\n",
        " 120 15\n",
    ),
    (
        "b0 = f_new(17);\nb0[0] = 1;\nfor (k1 = 0; k1 < 16; k1 = k1 + 1) {\ni0 = b0[k1];\ni1 = k1 + 1;\ni0 = i0 * 3;\nb0[i1] = i0;\n}\ni0 = b0[16];\nf_put_int(i0);\nf_record();\n",
        " 43046721\n",
    ),
    (
        "for (k1 = 0; k1 < 20; k1 = k1 + 1) {\ni0 = i0 + 1;\nif (i0) {\ni1 = i1 + k1;\n}\n}\nf_put_int(i0);\nf_put_int(i1);\nf_record();\n",
        " 20 190\n",
    ),
    (
        "for (k1 = 0; k1 < 20; k1 = k1 + 1) {\n}\nf_put_int(k1);\nf_record();\n",
        " 20\n",
    ),
    (
        "for (k1 = 0; k1 < 20; k1 = k1 + 1) {\nfor (k1 = 0; k1 < 30; k1 = k1 + 1) {\ni0 = i0 + k1;\n}\n}\nf_put_int(i0);\nf_put_int(k1);\nf_record();\n",
        " 435 31\n",
    ),
    (
        "i0 = 9223372036854775807;\nfor (k1 = 0; k1 < 17; k1 = k1 + 1) {\ni0 = i0 + i0;\ni0 = i0 - k1;\n}\nf_put_int(i0);\nf_put_int(k1);\nf_record();\n",
        " -262126 17\n",
    ),
    (
        "for (k1 = 0; k1 < 20; k1 = k1 + 1) {\nf_at(9);\ni1 = 15 - k1;\ni0 = i0 + i1;\n}\nf_at(3);\nfor (k1 = 0; k1 < 20; k1 = k1 + 1) {\nf_at(4);\ni0 = i0 + 1;\nf_at(5);\n}\nf_put_int(i0);\nf_record();\n",
        " 130\n",
    ),
];

/// The same, of which a turn has no step, and its number.
const STUCK_SWEEPS: [(&str, u8); 4] = [
    (
        "b0 = f_new(20);\nfor (k1 = 0; k1 < 40; k1 = k1 + 1) {\nb0[k1] = 1;\n}\nf_put_int(i0);\nf_record();\n",
        1,
    ),
    (
        "for (k1 = 0; k1 < 40; k1 = k1 + 1) {\ni1 = 20 - k1;\ni0 = 100 / i1;\n}\nf_put_int(i0);\nf_record();\n",
        3,
    ),
    (
        "for (k1 = 0; k1 < 20; k1 = k1 + 1) {\ni0 = b0[k1];\n}\nf_put_int(i0);\nf_record();\n",
        2,
    ),
    (
        "b0 = f_new(20);\nfor (k1 = 0; k1 < 20; k1 = k1 + 1) {\nb0[k1] = k1;\nf_free(b0);\n}\n",
        2,
    ),
];

#[test]
fn loops_of_many_turns_are_obeyed(rt: HostRuntime) -> Result<(), Fail> {
    assert_eq!(rt; first_wrong(rt.alloc(), &SWEEPS, "", "")?, None);
    assert_eq!(rt; first_not_stuck(rt.alloc(), &STUCK_SWEEPS)?, None);
    Ok(())
}
