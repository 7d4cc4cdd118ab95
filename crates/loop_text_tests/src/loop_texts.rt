//! What `loop_text` reads: each line of the grammar, and what lies one byte beside it.
use loop_text::{NoText, one_line, one_program, print, read};
use std::alloc::{AllocError, Global};
use std::test::Fail;

/// The line that a text is refused at, or None where it is read; then its program is printed as the same bytes.
fn refused(alloc: Global, text: &[u8]) -> Result<Option<u32>, Fail> {
    match read(alloc, text) {
        Ok(program) => {
            let again = print(alloc, &program)?;
            if again.as_slice() == text {
                return Ok(None);
            }
            Err(Fail::new("another text"))
        }
        Err(NoText::At { line }) => Ok(Some(line.0)),
        Err(NoText::Memory) => Err(Fail::new("out of memory")),
    }
}

const FRONT: &str = "/* LoopC 1 */\nvoid f0() {\n";

/// The text whose main function has these lines, of which the first is line 3.
fn main_of(alloc: Global, lines: &[u8]) -> Result<Vec<u8>, AllocError> {
    let mut text = FRONT.as_bytes().to_vec(alloc)?;
    text.extend_from_slice(lines)?;
    text.extend_from_slice(b"\n}\n")?;
    Ok(text)
}

/// Whether the main function with these lines is refused at this line, or is read where there is none.
fn is_told(alloc: Global, lines: &[u8], line: Option<u32>) -> Result<bool, Fail> {
    let text = main_of(alloc, lines)?;
    Ok(refused(alloc, text.as_slice())? == line)
}

/// Of texts that stand between others in the lines of a main function, the first that isn't refused at its line, or read
/// where there is none.
fn first_wrong(
    alloc: Global,
    before: &str,
    cases: &[(&'static str, Option<u32>)],
    after: &str,
) -> Result<Option<&'static str>, Fail> {
    for (text, line) in cases {
        let lines = format!(in alloc; "{before}{text}{after}")?;
        if !is_told(alloc, lines.as_bytes(), *line)? {
            return Ok(Some(*text));
        }
    }
    Ok(None)
}

/// The bytes with one more at a place.
fn with_byte(alloc: Global, bytes: &[u8], place: usize, byte: u8) -> Result<Vec<u8>, AllocError> {
    let mut all = bytes.to_vec(alloc)?;
    if place <= all.len() {
        all.insert(place, byte)?;
    }
    Ok(all)
}

/// Lines that are read, each beside one that isn't.
const ROWS: [(&str, &str); 75] = [
    // integers
    ("i0 = i1;", "i0 = j1;"),
    ("i0 = k1;", "i0 =k1;"),
    ("i0 = -7;", "i0 = +7;"),
    ("i0 = i1 + 2;", "i0 = i1 +2;"),
    ("i0 = -1 - -2;", "i0 = -1 - --2;"),
    ("i0 = i1 * k2;", "i0 = i1 ** k2;"),
    ("i0 = i1 / i2;", "i0 = i1 / s2;"),
    ("i0 = i1 % i2;", "i0 = i1 % ;"),
    ("i0 = i1 < i2;", "i0 = i1 > i2;"),
    ("i0 = i1 <= i2;", "i0 = i1 =< i2;"),
    ("i0 = i1 == i2;", "i0 = i1 = i2;"),
    ("i0 = i1 != i2;", "i0 = i1 ! i2;"),
    ("i0 = i1 & i2;", "i0 = i1 && i2;"),
    ("i0 = i1 | i2;", "i0 = i1 ^ i2;"),
    ("i0 = b1[i2];", "i0 = c1[i2];"),
    ("i0 = b1[-1];", "i0 = b1[];"),
    ("b0[k1] = i2;", "b0[k1] = b2;"),
    ("b0[1] = 2;", "b0(1) = 2;"),
    // texts
    ("s0 = s1;", "s0 = i1;"),
    ("s0 = \"\";", "s0 = \";"),
    ("s0 = \"a b\";", "s0 = \"a b;"),
    ("s0 = c1[i2];", "s0 = b1[i2];"),
    ("c0[k1] = s2;", "c0[s1] = s2;"),
    ("c0[3] = \"x;y\";", "c0[3] = 'x;y';"),
    ("s0 = \"}\";", "s0 = \"}\""),
    // built-ins whose value is an integer
    ("i0 = f_wrap(i1);", "i0 = f_wrap(s1);"),
    ("i0 = f_pow(i1, 2);", "i0 = f_pow(i1,2);"),
    ("i0 = f_xor(i1, i2);", "i0 = f_xor(i1);"),
    ("i0 = f_len(s1);", "i0 = f_len(i1);"),
    ("i0 = f_len(\"),\");", "i0 = f_len(\"),\";"),
    ("i0 = f_index(s1, \"a\");", "i0 = f_index(s1, a);"),
    ("i0 = f_code(s1);", "s0 = f_code(s1);"),
    ("i0 = f_cmp(\"a\", s2);", "i0 = f_cmp(\"a\" s2);"),
    ("i0 = f_size(b1);", "i0 = f_size(i1);"),
    ("i0 = f_live(c1);", "i0 = f_live(k1);"),
    ("i0 = f_depth();", "i0 = f_depth(0);"),
    ("i0 = f_more();", "i0 = f_more;"),
    ("i0 = f_look(0);", "i0 = f_look();"),
    ("i0 = f_take(k1);", "i0 = f_take(k1"),
    ("i0 = f_take(1);", "i0 = f_give(1);"),
    // built-ins whose value is a text
    ("s0 = f_cat(s1, \"b\");", "s0 = f_cat(s1, \"b\")"),
    ("s0 = f_sub(s1, 1, i2);", "s0 = f_sub(s1, 1);"),
    ("s0 = f_over(s1, 1, s2);", "s0 = f_over(s1, s2, 1);"),
    ("s0 = f_fit(s1, 80);", "s0 = f_fit(80, s1);"),
    ("s0 = f_trim(s1);", "s0 = f_trim(c1);"),
    ("s0 = f_left(s1);", "s0 = f_left(s1, s1);"),
    ("s0 = f_right(\" a\");", "s0 = f_right(\" a\"));"),
    ("s0 = f_chr(65);", "i0 = f_chr(65);"),
    // blocks
    ("b0 = f_new(3);", "c0 = f_new(3);"),
    ("b0 = f_temp(i1);", "b0 = f_tmp(i1);"),
    ("b0 = f_copy(k1);", "b0 = f_copy(b1);"),
    ("b0 = f_mark(0);", "b0 = f_mark();"),
    ("c0 = f_new_text(3, i1);", "c0 = f_new_text(3);"),
    ("c0 = f_temp_text(3);", "b0 = f_temp_text(3);"),
    ("c0 = f_copy_text(3);", "c0 = f_copy_texts(3);"),
    ("b0 = b1;", "b0 = c1;"),
    ("c0 = c1;", "c0 = b1;"),
    ("f_grow(b0, 1);", "f_grow(1, b0);"),
    ("f_grow(c0, i1);", "f_grow(c0);"),
    ("f_free(b0);", "f_free(s0);"),
    ("f_free(c0);", "f_free(c0)"),
    // control
    ("return;", "return"),
    ("f1();", "f1( );"),
    ("f2(i0);", "f2(i0, );"),
    ("f3(1, k2, s3, b4, c5);", "f3(1, k2, s3, b4, d5);"),
    ("f4(\"a, b\", -1);", "f4(\"a, b\",-1);"),
    ("f_stop();", "f_stop;"),
    ("f_fault(1);", "f_fault(i1);"),
    ("f_at(7);", "f_at(-7);"),
    ("f_at(0);", "f_at();"),
    // records and input
    ("f_put_int(i0);", "f_put_int(s0);"),
    ("f_put_log(0);", "f_put_log(\"T\");"),
    ("f_put_text(\"T\");", "f_put_text(84);"),
    ("f_record();", "f_records();"),
    ("f_skip();", "f_skip()"),
];

/// Whether a line in which no text stands is refused with one more blank, at whatever place.
fn blanks_are_refused(alloc: Global, line: &str) -> Result<bool, Fail> {
    if line.as_bytes().contains(&b'"') {
        return Ok(true);
    }
    for place in 0..line.len() {
        let spaced = with_byte(alloc, line.as_bytes(), place, b' ')?;
        if !is_told(alloc, spaced.as_slice(), Some(3))? {
            return Ok(false);
        }
    }
    Ok(true)
}

/// Whether the first line is read, but with no blank more, and the other refused.
fn is_row(alloc: Global, good: &str, bad: &str) -> Result<bool, Fail> {
    Ok(
        is_told(alloc, good.as_bytes(), None)?
            && blanks_are_refused(alloc, good)?
            && is_told(alloc, bad.as_bytes(), Some(3))?,
    )
}

#[test]
fn each_row_is_read_and_those_beside_are_refused(rt: HostRuntime) -> Result<(), Fail> {
    for (good, bad) in &ROWS {
        assert!(rt; is_row(rt.alloc(), *good, *bad)?, "{good} and {bad}");
    }
    Ok(())
}

/// What stands before and behind a number of a variable, a function or a line.
const NUMBERED: [(&str, &str); 12] = [
    ("i", " = 1;"),
    ("s", " = \"\";"),
    ("b", " = b0;"),
    ("c", "[0] = s0;"),
    ("i0 = k", ";"),
    ("i0 = b", "[0];"),
    ("s0 = c", "[i0];"),
    ("b0 = b", ";"),
    ("f_free(c", ");"),
    ("f", "(i0);"),
    ("f1(s", ");"),
    ("f_at(", ");"),
];

const NUMBERS: [(&str, Option<u32>); 12] = [
    ("0", None),
    ("9", None),
    ("10", None),
    ("4294967295", None),
    ("", Some(3)),
    ("00", Some(3)),
    ("01", Some(3)),
    ("-0", Some(3)),
    ("-1", Some(3)),
    ("+1", Some(3)),
    ("4294967296", Some(3)),
    ("18446744073709551616", Some(3)),
];

const INTEGERS: [(&str, Option<u32>); 20] = [
    ("0", None),
    ("-1", None),
    ("10", None),
    ("9223372036854775807", None),
    ("-9223372036854775808", None),
    ("", Some(3)),
    ("-", Some(3)),
    ("-0", Some(3)),
    ("00", Some(3)),
    ("01", Some(3)),
    ("-01", Some(3)),
    ("+1", Some(3)),
    ("--1", Some(3)),
    ("9223372036854775808", Some(3)),
    ("-9223372036854775809", Some(3)),
    ("18446744073709551616", Some(3)),
    ("340282366920938463463374607431768211456", Some(3)),
    ("1.", Some(3)),
    ("0x1", Some(3)),
    ("1L", Some(3)),
];

const FAULTS: [(&str, Option<u32>); 23] = [
    ("1", None),
    ("2", None),
    ("3", None),
    ("4", None),
    ("5", None),
    ("6", None),
    ("7", None),
    ("8", None),
    ("9", None),
    ("10", None),
    ("11", None),
    ("12", None),
    ("13", None),
    ("14", None),
    ("15", None),
    ("", Some(3)),
    ("0", Some(3)),
    ("01", Some(3)),
    ("16", Some(3)),
    ("256", Some(3)),
    ("257", Some(3)),
    ("4294967297", Some(3)),
    ("18446744073709551617", Some(3)),
];

#[test]
fn numbers_have_one_spelling(rt: HostRuntime) -> Result<(), Fail> {
    for (before, after) in &NUMBERED {
        assert_eq!(rt;
            first_wrong(rt.alloc(), *before, &NUMBERS, *after)?,
            None,
            "{before}"
        );
    }
    Ok(())
}

#[test]
fn integers_have_one_spelling(rt: HostRuntime) -> Result<(), Fail> {
    assert_eq!(rt; first_wrong(rt.alloc(), "i0 = ", &INTEGERS, ";")?, None);
    Ok(())
}

#[test]
fn faults_have_one_spelling(rt: HostRuntime) -> Result<(), Fail> {
    assert_eq!(rt; first_wrong(rt.alloc(), "f_fault(", &FAULTS, ");")?, None);
    Ok(())
}

/// A byte as a backslash and three octal digits.
fn octal(alloc: Global, byte: u8) -> Result<String, AllocError> {
    let (high, middle, low) = (byte / 64, byte / 8 % 8, byte % 8);
    format!(in alloc; "\\{high}{middle}{low}")
}

/// The same of the line that sets a text to these bytes between quotes.
fn is_told_quoted(alloc: Global, bytes: &[u8], line: Option<u32>) -> Result<bool, Fail> {
    let mut lines = b"s0 = \"".to_vec(alloc)?;
    lines.extend_from_slice(bytes)?;
    lines.extend_from_slice(b"\";")?;
    is_told(alloc, lines.as_slice(), line)
}

/// Whether a byte is spelled as itself where it is plain, and in octal where it isn't.
fn has_one_spelling(alloc: Global, byte: u8) -> Result<bool, Fail> {
    let escaped = octal(alloc, byte)?;
    let plain = byte >= 32 && byte <= 126 && byte != b'"' && byte != b'\\';
    let (itself, in_octal) = if plain {
        (None, Some(3))
    } else {
        (Some(3), None)
    };
    Ok(
        is_told_quoted(alloc, &[byte], itself)?
            && is_told_quoted(alloc, escaped.as_bytes(), in_octal)?,
    )
}

const QUOTED: [(&str, Option<u32>); 17] = [
    ("\\400", Some(3)),
    ("\\777", Some(3)),
    ("\\1000", Some(3)),
    ("\\08", Some(3)),
    ("\\8", Some(3)),
    ("\\1", Some(3)),
    ("\\n", Some(3)),
    ("\\00x", Some(3)),
    ("\\00\\000", Some(3)),
    ("\\018", Some(3)),
    ("\\", Some(3)),
    ("\\\"", Some(3)),
    ("a\\012\\01", Some(3)),
    ("\\0121", None),
    ("\\377\\000", None),
    ("a\\042b\\134c", None),
    ("\\1770", None),
];

#[test]
fn each_byte_of_a_text_has_one_spelling(rt: HostRuntime) -> Result<(), Fail> {
    for byte in 0..=255_u8 {
        assert!(rt; has_one_spelling(rt.alloc(), byte)?, "byte {byte}");
    }
    assert_eq!(rt; first_wrong(rt.alloc(), "s0 = \"", &QUOTED, "\";")?, None);
    Ok(())
}

/// The lines of a main function, of which the first is line 3; the line that is refused.
const BRACES: [(&str, Option<u32>); 46] = [
    ("if (i0) {\n}", None),
    ("if (-1) {\nreturn;\n} else {\nf_stop();\n}", None),
    ("if (0) {\n} else {\nif (k1) {\n} else {\n}\n}", None),
    ("for (k1 = 0; k1 < 3; k1 = k1 + 1) {\n}", None),
    ("for (k1 = 0; k1 < k1; k1 = k1 + 1) {\ni0 = k1;\n}", None),
    ("for (k1 = 3 - 1; k1 >= 0; k1 = k1 - 1) {\n}", None),
    ("for (k1 = i2 - 1; k1 >= 0; k1 = k1 - 1) {\n}", None),
    ("for (k1 = -9 - 1; k1 >= 0; k1 = k1 - 1) {\n}", None),
    ("while (1) {\n}", None),
    ("if (s0) {\n}", Some(3)),
    ("if (i0 == 1) {\n}", Some(3)),
    ("if(i0) {\n}", Some(3)),
    ("if (i0){\n}", Some(3)),
    ("if (i0)\n{\n}", Some(3)),
    ("if (i0) {}", Some(3)),
    ("if (i0) {\n}else {\n}", Some(4)),
    ("if (i0) {\n}\nelse {\n}", Some(5)),
    ("if (i0) {\n} else if (i1) {\n}", Some(4)),
    ("if (i0) {\n} else {\n} else {\n}", Some(5)),
    ("} else {\n}", Some(3)),
    ("while (1) {\n} else {\n}", Some(4)),
    ("while (0) {\n}", Some(3)),
    ("while (i0) {\n}", Some(3)),
    ("for (k1 = 0; k1 < 3; k1 = k1 + 1)\n{\n}", Some(3)),
    ("for (k1 = 0; k1 < 3; k1 = k2 + 1) {\n}", Some(3)),
    ("for (k1 = 0; k2 < 3; k1 = k1 + 1) {\n}", Some(3)),
    ("for (k1 = 0; k1 <= 3; k1 = k1 + 1) {\n}", Some(3)),
    ("for (k1 = 1; k1 < 3; k1 = k1 + 1) {\n}", Some(3)),
    ("for (k1 = 0; k1 < 3; k1 = k1 + 2) {\n}", Some(3)),
    ("for (i1 = 0; i1 < 3; i1 = i1 + 1) {\n}", Some(3)),
    ("for (k1 = 3; k1 >= 0; k1 = k1 - 1) {\n}", Some(3)),
    ("for (k1 = 3 - 1; k1 > 0; k1 = k1 - 1) {\n}", Some(3)),
    ("for (k1 = 3 - 1; k1 >= 0; k2 = k1 - 1) {\n}", Some(3)),
    ("for (k1 = 3 + 1; k1 >= 0; k1 = k1 - 1) {\n}", Some(3)),
    ("for (k01 = 0; k01 < 3; k01 = k01 + 1) {\n}", Some(3)),
    ("}", Some(4)),
    ("}\n}", Some(4)),
    ("if (i0) {", Some(5)),
    ("i0 = 1;\n", Some(4)),
    ("\ni0 = 1;", Some(3)),
    ("i0 = 1;\n\ni0 = 2;", Some(4)),
    ("i0 = 1; i0 = 2;", Some(3)),
    ("void f1() {\n}", Some(3)),
    ("/* LoopC 1 */", Some(3)),
    ("/* a comment */", Some(3)),
    (";", Some(3)),
];

#[test]
fn braces_are_matched(rt: HostRuntime) -> Result<(), Fail> {
    assert_eq!(rt; first_wrong(rt.alloc(), "", &BRACES, "")?, None);
    Ok(())
}

/// The same, with `#` in the place of `break` and of `continue`.
const EXITS: [(&str, Option<u32>); 12] = [
    ("while (1) {\n#;\n}", None),
    ("for (k1 = 0; k1 < 3; k1 = k1 + 1) {\n#;\n}", None),
    ("for (k1 = 3 - 1; k1 >= 0; k1 = k1 - 1) {\n#;\n}", None),
    ("while (1) {\nif (i0) {\n#;\n} else {\n#;\n}\n#;\n}", None),
    ("#;", Some(3)),
    ("if (i0) {\n#;\n}", Some(4)),
    ("if (i0) {\n} else {\n#;\n}", Some(5)),
    ("while (1) {\n}\n#;", Some(5)),
    ("if (i0) {\nwhile (1) {\n}\n#;\n}", Some(6)),
    ("while (1) {\n}\n}\nvoid f1() {\n#;", Some(7)),
    ("while (1) {\n#\n}", Some(4)),
    ("while (1) {\n#();\n}", Some(4)),
];

/// The lines with a word in the place of `#`.
fn with_word(alloc: Global, lines: &str, word: &str) -> Result<Vec<u8>, AllocError> {
    let mut all = Vec::new(alloc);
    for byte in lines.as_bytes() {
        if *byte == b'#' {
            all.extend_from_slice(word.as_bytes())?;
        } else {
            all.push(*byte)?;
        }
    }
    Ok(all)
}

#[test]
fn break_and_continue_stand_in_loops(rt: HostRuntime) -> Result<(), Fail> {
    for (lines, line) in &EXITS {
        for word in ["break", "continue"] {
            let all = with_word(rt.alloc(), *lines, word)?;
            assert!(rt;
                is_told(rt.alloc(), all.as_slice(), *line)?,
                "{word} in {lines}"
            );
        }
    }
    Ok(())
}

const FUNCTIONS: [(&str, Option<u32>); 35] = [
    ("void f0() {\n}\n", None),
    ("void f0() {\n}\nvoid f1(i0) {\n}\n", None),
    (
        "void f0() {\n}\nvoid f1(i0, s1, b2, c3) {\nreturn;\n}\nvoid f2() {\n}\n",
        None,
    ),
    (
        "void f0() {\n}\nvoid f1(i0, i1, i2, i3, i4, i5, i6, i7, i8, i9, s10, c11) {\n}\n",
        None,
    ),
    ("", Some(2)),
    ("void f1() {\n}\n", Some(2)),
    ("void f00() {\n}\n", Some(2)),
    ("void f() {\n}\n", Some(2)),
    ("void f0(i0) {\n}\n", Some(2)),
    ("void f0( ) {\n}\n", Some(2)),
    ("void f0(){\n}\n", Some(2)),
    ("void f0()\n{\n}\n", Some(2)),
    ("int f0() {\n}\n", Some(2)),
    ("f0() {\n}\n", Some(2)),
    ("void f0() {\n}\nvoid f0() {\n}\n", Some(4)),
    ("void f0() {\n}\nvoid f2() {\n}\n", Some(4)),
    ("void f0() {\n}\nvoid f01() {\n}\n", Some(4)),
    ("void f0() {\n}\nvoid f1(i1) {\n}\n", Some(4)),
    ("void f0() {\n}\nvoid f1(i0, i0) {\n}\n", Some(4)),
    ("void f0() {\n}\nvoid f1(i0, s2) {\n}\n", Some(4)),
    ("void f0() {\n}\nvoid f1(i00) {\n}\n", Some(4)),
    ("void f0() {\n}\nvoid f1(i) {\n}\n", Some(4)),
    ("void f0() {\n}\nvoid f1(k0) {\n}\n", Some(4)),
    ("void f0() {\n}\nvoid f1(i0,s1) {\n}\n", Some(4)),
    ("void f0() {\n}\nvoid f1(i0, ) {\n}\n", Some(4)),
    ("void f0() {\n}\nvoid f1(i0; s1) {\n}\n", Some(4)),
    ("void f0() {\n}\nvoid f1(ii0) {\n}\n", Some(4)),
    ("void f0() {\n}\nvoid f1(i0) {i\n}\n", Some(4)),
    ("void f0() {\nvoid f1() {\n}\n", Some(3)),
    ("void f0() {\n}\n}\n", Some(4)),
    ("void f0() {\n}\ni0 = 1;\n", Some(4)),
    ("void f0() {\n}\n\n", Some(4)),
    ("void f0() {\n}\n/* LoopC 1 */\nvoid f1() {\n}\n", Some(4)),
    ("/* LoopC 1 */\nvoid f0() {\n}\n", Some(2)),
    ("void f0() {\n}\nvoid f1() {\n", Some(5)),
];

/// Whether a text whose first line is right is so refused.
fn is_told_behind_first(alloc: Global, functions: &str, line: Option<u32>) -> Result<bool, Fail> {
    let text = format!(in alloc; "/* LoopC 1 */\n{functions}")?;
    Ok(refused(alloc, text.as_bytes())? == line)
}

#[test]
fn functions_are_numbered(rt: HostRuntime) -> Result<(), Fail> {
    for (functions, line) in &FUNCTIONS {
        assert!(rt;
            is_told_behind_first(rt.alloc(), *functions, *line)?,
            "{functions}"
        );
    }
    Ok(())
}

/// A main function in which so many more braces are open, each opened by this line; then ELSE where it fits, and all of
/// them closed.
fn nested(alloc: Global, line: &str, braces: usize, other: bool) -> Result<Vec<u8>, AllocError> {
    let mut text = FRONT.as_bytes().to_vec(alloc)?;
    for _ in 0..braces {
        text.extend_from_slice(line.as_bytes())?;
        text.push(b'\n')?;
    }
    if other {
        text.extend_from_slice(b"} else {\n")?;
    }
    for _ in 0..=braces {
        text.extend_from_slice(b"}\n")?;
    }
    Ok(text)
}

/// The line that opens each brace, how many of them are open, whether ELSE comes, and the line that is refused. The brace
/// of the function is one more.
const NESTED: [(&str, usize, bool, Option<u32>); 19] = [
    ("if (i0) {", 999, false, None),
    ("if (i0) {", 1000, false, Some(1002)),
    ("if (i0) {", 1001, false, Some(1002)),
    ("if (i0) {", 5000, false, Some(1002)),
    ("while (1) {", 999, false, None),
    ("while (1) {", 1000, false, Some(1002)),
    ("while (1) {", 1001, false, Some(1002)),
    ("while (1) {", 5000, false, Some(1002)),
    ("for (k1 = 0; k1 < 3; k1 = k1 + 1) {", 999, false, None),
    (
        "for (k1 = 0; k1 < 3; k1 = k1 + 1) {",
        1000,
        false,
        Some(1002),
    ),
    (
        "for (k1 = 0; k1 < 3; k1 = k1 + 1) {",
        1001,
        false,
        Some(1002),
    ),
    (
        "for (k1 = 0; k1 < 3; k1 = k1 + 1) {",
        5000,
        false,
        Some(1002),
    ),
    ("for (k1 = 3 - 1; k1 >= 0; k1 = k1 - 1) {", 999, false, None),
    (
        "for (k1 = 3 - 1; k1 >= 0; k1 = k1 - 1) {",
        1000,
        false,
        Some(1002),
    ),
    (
        "for (k1 = 3 - 1; k1 >= 0; k1 = k1 - 1) {",
        1001,
        false,
        Some(1002),
    ),
    (
        "for (k1 = 3 - 1; k1 >= 0; k1 = k1 - 1) {",
        5000,
        false,
        Some(1002),
    ),
    ("if (i0) {", 999, true, None),
    // each in the part behind ELSE of the one around it
    ("if (i0) {\n} else {", 999, false, None),
    ("if (i0) {\n} else {", 1000, false, Some(2001)),
];

fn is_told_nested(
    alloc: Global,
    opening: &str,
    braces: usize,
    other: bool,
    line: Option<u32>,
) -> Result<bool, Fail> {
    let text = nested(alloc, opening, braces, other)?;
    Ok(refused(alloc, text.as_slice())? == line)
}

#[test]
fn a_thousand_braces_are_open(rt: HostRuntime) -> Result<(), Fail> {
    for (opening, braces, other, line) in &NESTED {
        assert!(rt;
            is_told_nested(rt.alloc(), *opening, *braces, *other, *line)?,
            "{braces} times {opening}"
        );
    }
    Ok(())
}

const SMALL: &str =
    "/* LoopC 1 */\nvoid f0() {\nf1(1);\nif (i0) {\n} else {\nf_stop();\n}\n}\nvoid f1(i0) {\n}\n";

/// How many line feeds are in front of a place.
fn feeds(text: &[u8], place: usize) -> u32 {
    let mut count = 0_u32;
    for byte in text.iter().take(place) {
        if *byte == b'\n' {
            count = count.saturating_add(1);
        }
    }
    count
}

/// Whether the text that ends at a place is refused in the line behind its last line feed: a piece without a line feed is
/// one line more. Only where the main function ends is it a text too.
fn cut_is_told(alloc: Global, end: usize) -> Result<bool, Fail> {
    let text = SMALL.as_bytes();
    let whole = b"/* LoopC 1 */\nvoid f0() {\nf1(1);\nif (i0) {\n} else {\nf_stop();\n}\n}\n".len();
    let Some(front) = text.get(..end) else {
        return Ok(false);
    };
    let line = if end == whole {
        None
    } else {
        Some(feeds(text, end).saturating_add(1))
    };
    Ok(refused(alloc, front)? == line)
}

#[test]
fn a_text_that_is_cut_is_refused_behind_its_lines(rt: HostRuntime) -> Result<(), Fail> {
    for end in 0..SMALL.len() {
        assert!(rt; cut_is_told(rt.alloc(), end)?, "{end} bytes");
    }
    assert_eq!(rt; refused(rt.alloc(), SMALL.as_bytes())?, None);
    Ok(())
}

/// Whether the text with one more byte, which may stand behind its last line feed too, is refused in the line of that.
fn more_is_told(alloc: Global, byte: u8, place: usize) -> Result<bool, Fail> {
    let text = SMALL.as_bytes();
    let more = with_byte(alloc, text, place, byte)?;
    Ok(refused(alloc, more.as_slice())? == Some(feeds(text, place).saturating_add(1)))
}

#[test]
fn other_bytes_are_refused_at_their_line(rt: HostRuntime) -> Result<(), Fail> {
    for byte in [0, 9, 13, 26, 32, 127, 128, 255] {
        for place in 0..=SMALL.len() {
            assert!(rt; more_is_told(rt.alloc(), byte, place)?, "{byte} at {place}");
        }
    }
    Ok(())
}

const OTHERS: [(&[u8], u32); 9] = [
    (b"", 1),
    (b"\n", 1),
    (b"/* LoopC 1 */", 1),
    (b"/* LoopC 1 */\n", 2),
    (b"/* LoopC 2 */\nvoid f0() {\n}\n", 1),
    (b"\xef\xbb\xbf/* LoopC 1 */\nvoid f0() {\n}\n", 1),
    (b"/* LoopC 1 */\r\nvoid f0() {\r\n}\r\n", 1),
    (b"/* LoopC 1 */\rvoid f0() {\r}\r", 1),
    (b"/* LoopC 1 */\nvoid f0() {\n}\r\n", 3),
];

#[test]
fn other_texts_are_refused(rt: HostRuntime) -> Result<(), Fail> {
    for (text, line) in &OTHERS {
        assert_eq!(rt; refused(rt.alloc(), *text)?, Some(*line));
    }
    Ok(())
}

#[test]
fn a_long_text_is_read(rt: HostRuntime) -> Result<(), Fail> {
    let alloc = rt.alloc();
    let mut lines = Vec::new(alloc);
    for number in 0..20000_u32 {
        let line = format!(in alloc; "i{number} = f_pow(i{number}, {number});\n")?;
        lines.extend_from_slice(line.as_bytes())?;
    }
    lines.extend_from_slice(b"return;")?;
    assert!(rt; is_told(alloc, lines.as_slice(), None)?);
    lines.extend_from_slice(b" ")?;
    assert!(rt; is_told(alloc, lines.as_slice(), Some(20003))?);
    one_program();
    one_line();
    Ok(())
}
