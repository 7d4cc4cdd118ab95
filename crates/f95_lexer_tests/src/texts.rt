//! The rules of lines and tokens at their edges.
use crate::outcome::{Row, first_wrong, outcome};
use f95_lexer::{cuts_unbroken, one_cut, read_statements};
use std::alloc::{AllocError, Global};
use std::test::Fail;

const LINES: [Row; 14] = [
    (b"", ""),
    (b"a", "[1] a "),
    (b"\n\n  a ! b\n", "[3] a "),
    (b"a\r\nb\r\n", "[1] a [2] b "),
    (b"a\r", "P2 at 1"),
    (b"a\n\nb\r", "P2 at 3"),
    (b"! a\n ! b ; c\n", ""),
    (b"a;b;;c ; ! d", "[1] a [1] b [1] c "),
    (b"a\tb", "[1] a  b "),
    (b"a\x0cb", "P2 at 1"),
    (b"a ! \xff", "[1] a "),
    (b"'a!b;c&d' ! e", "[1]'a!b;c&d'"),
    (b"a\n\xff", "P2 at 2"),
    (b"a & b", "P2 at 1"),
];

#[test]
fn lines(rt: HostRuntime) -> Result<(), Fail> {
    assert_eq!(rt; first_wrong(rt.alloc(), &LINES)?, None);
    Ok(())
}

const CONTINUATIONS: [Row; 22] = [
    (b"a = &\n 2\nb", "[1] a = 2 [3] b "),
    (b"ab&\n&cd", "[1] abcd "),
    (b"ab&\ncd", "[1] ab  cd "),
    (b"ab & ! c\n\n  ! d &\n e", "[1] ab  e "),
    (b"! a &\nb", "[2] b "),
    (b"'ab&\n&cd'", "[1]'abcd'"),
    (b"'ab & \n! c\n & cd'", "[1]'ab  cd'"),
    (b"'it'&\n&'s'", "[1]'it's'"),
    (b"a; &\nb", "[1] a [2] b "),
    (b"a &\n& &\n b", "[1] a  b "),
    (b"1&\n&.foo.", "P9 at 1"),
    (b"'ab", "P5 at 1"),
    (b"'ab & ! c\n&d'", "P5 at 1"),
    (b"a\n'b&\n&c\nd'", "P5 at 3"),
    (b"a &", "P6 at 1"),
    (b"a\nb &\n\n ! c\n", "P6 at 2"),
    (b"a &\n &\n b", "P6 at 2"),
    (b"a &\n & ! c\n b", "P6 at 2"),
    (b"a\n&b", "P6 at 2"),
    (b"'a&\n\nb'\n?", "P6 at 1"),
    (b"'a&\n& \n&b'", "P6 at 2"),
    (b"'a&\n", "P6 at 1"),
];

#[test]
fn continuations(rt: HostRuntime) -> Result<(), Fail> {
    assert_eq!(rt; first_wrong(rt.alloc(), &CONTINUATIONS)?, None);
    Ok(())
}

const TOKENS: [Row; 27] = [
    (b"A1_b = Cd", "[1] a1_b = cd "),
    (b"1.eq.2", "[1] 1 .eq. 2 "),
    (b"a.NOT..True.", "[1] a .not..true."),
    (b"'it''s'\"a'\"\"\"", "[1]'it's''a'\"'"),
    (b"''", "[1]''"),
    (b"(/1,2/)", "[1](/ 1 , 2 /)"),
    (b"( / ) (//) ///)", "[1](/)(//)///)"),
    (b"a:::b==c/=d<=e>=f", "[1] a ::: b == c /= d <= e >= f "),
    (
        b"a===b<c>d+e-f*g***h//i/j",
        "[1] a === b < c > d + e - f * g *** h // i / j ",
    ),
    (b"2147483647 0000000000002", "[1] 2147483647  2 "),
    (b"2147483648", "P8 at 1"),
    (b"\n99999999999999999999999", "P8 at 2"),
    (b"1a", "P9 at 1"),
    (b"1_", "P9 at 1"),
    (b"1__", "P2 at 1"),
    (b"1.", "P9 at 1"),
    (b"1.5", "P9 at 1"),
    (b"1.foo.", "P9 at 1"),
    (b".foo.", "P10 at 1"),
    (b"a\nb.neqvv.c", "P10 at 2"),
    (b".eq", "P2 at 1"),
    (b". eq.", "P2 at 1"),
    (b"..", "P2 at 1"),
    (b"_a", "P2 at 1"),
    (b"a%b", "P2 at 1"),
    (b"1a ?", "P2 at 1"),
    (b".foo.\n1a\n?", "P10 at 1"),
];

#[test]
fn tokens(rt: HostRuntime) -> Result<(), Fail> {
    assert_eq!(rt; first_wrong(rt.alloc(), &TOKENS)?, None);
    Ok(())
}

/// What is easily read otherwise.
const EDGES: [Row; 51] = [
    (b"a\r\r\n", "P2 at 1"),
    (b"'a\r'\n", "[1]'a\r'"),
    (b"'a\r\n", "P5 at 1"),
    (b"a ! c\r\nb\r\n", "[1] a [2] b "),
    (b"\ta\t&\t\n\t&\tb\t", "[1] a  b "),
    (b"a ! b &\nc", "[1] a [2] c "),
    (b"! &\nb", "[2] b "),
    (b";;", ""),
    (b"; ;\n;a;", "[2] a "),
    (b"a &\n\n ! c &\n b", "[1] a  b "),
    (b"a &\n&", "P6 at 2"),
    (b"a &\n& ! c\n", "P6 at 2"),
    (b"'\xe9\xff' ! \xff", "[1]'\u{e9}\u{ff}'"),
    (b"1.e2", "P9 at 1"),
    (b"1.e2.", "P2 at 1"),
    (b"1.AND.2", "[1] 1 .and. 2 "),
    (b"1..eq.2", "P9 at 1"),
    (b"1.eq", "P9 at 1"),
    (b"a &;", "P2 at 1"),
    (b"&;a", "P6 at 1"),
    (b"'a''&\n&'b'", "P5 at 2"),
    (b"'a''&\n&b'", "[1]'a'b'"),
    (b"a ! 'b", "[1] a "),
    (b"'a ! b", "P5 at 1"),
    (b"'a&\n!c\n&b'", "[1]'ab'"),
    (b"'a  &\n & b'", "[1]'a   b'"),
    (b"1&\n&2", "[1] 12 "),
    (b"1&\n2", "[1] 1  2 "),
    (b".e&\n&q.", "[1].eq."),
    (b"&", "P6 at 1"),
    (b"& ! c\na", "P6 at 1"),
    (b"\n&\na", "P6 at 2"),
    (b"a & ! c\n! d\n", "P6 at 1"),
    (b"'a&\nb'", "P6 at 1"),
    (b"a\x00b", "P2 at 1"),
    (b"'\x00'", "[1]'\0'"),
    (b"1e5", "P9 at 1"),
    (b"a.b.c", "P10 at 1"),
    (b"a.5", "P2 at 1"),
    (b"a;'b&\n&c';d", "[1] a [1]'bc'[2] d "),
    (b"a &\n; b", "[1] a [2] b "),
    (b"'&'", "[1]'&'"),
    (b"'&\n&'", "[1]''"),
    (b"a ! &\n&b", "P6 at 2"),
    (b"'a&  ! c\n&b'", "P5 at 1"),
    (b"a='it''s&\n  &''s'; b", "[1] a ='it's's'[2] b "),
    (b"a\n\n\n", "[1] a "),
    (b"'a'&\nb", "[1]'a' b "),
    (b"1xxxxxxxxxxxxxxxxxxxxxxxxxxxxxxxx", "P7 at 1"),
    (b"1xxxxxxxxxxxxxxxxxxxxxxxxxxxxxxx", "P9 at 1"),
    (b"\"a'b\" 'c\"d'", "[1]'a'b''c\"d'"),
];

#[test]
fn edges(rt: HostRuntime) -> Result<(), Fail> {
    assert_eq!(rt; first_wrong(rt.alloc(), &EDGES)?, None);
    Ok(())
}

/// The front, so many times the middle, and the back.
fn repeated(
    alloc: Global,
    front: &str,
    middle: &str,
    count: usize,
    back: &str,
) -> Result<String, AllocError> {
    let mut text = String::from_str(alloc, front)?;
    for _ in 0..count {
        text.push_str(middle)?;
    }
    text.push_str(back)?;
    Ok(text)
}

/// The front, the middle, how many times it stands, the back, and what the text comes to.
type Limit = (
    &'static str,
    &'static str,
    usize,
    &'static str,
    &'static str,
);

const LIMITS: [Limit; 13] = [
    ("! ", "x", 130, "\r\na", "[2] a "),
    ("! ", "x", 131, "\r\na", "P3 at 1"),
    (
        "a\n",
        "x",
        31,
        "",
        "[1] a [2] xxxxxxxxxxxxxxxxxxxxxxxxxxxxxxx ",
    ),
    ("a\n", "x", 32, "", "P7 at 2"),
    (
        "a\nxx&\n&",
        "x",
        29,
        "",
        "[1] a [2] xxxxxxxxxxxxxxxxxxxxxxxxxxxxxxx ",
    ),
    ("a\nxx&\n&", "x", 30, "", "P7 at 2"),
    ("&", "& &\n\n!\n", 0, "", "P6 at 1"),
    ("a&\n", "& &\n\n!\n", 38, "b", "[1] a  b "),
    ("a&\n", "& &\n\n!\n", 39, "b", "P4 at 119"),
    ("a&\n", "& ; &\n", 60, "b", "[1] a [62] b "),
    ("a&\n", "& &\n", 41, "b", "P4 at 41"),
    ("", "\n", 1048576, "", ""),
    ("?", "\n", 1048576, "", "P1 at 1"),
];

fn first_wrong_limit(alloc: Global, rows: &[Limit]) -> Result<Option<usize>, AllocError> {
    for (row, (front, middle, count, back, wanted)) in rows.iter().enumerate() {
        let source = repeated(alloc, front, middle, *count, back)?;
        if outcome(alloc, source.as_bytes())?.as_str() != *wanted {
            return Ok(Some(row));
        }
    }
    Ok(None)
}

#[test]
fn limits(rt: HostRuntime) -> Result<(), Fail> {
    assert_eq!(rt; first_wrong_limit(rt.alloc(), &LIMITS)?, None);
    Ok(())
}

#[test]
fn line_feeds_are_counted(rt: HostRuntime) -> Result<(), Fail> {
    one_cut();
    cuts_unbroken();
    let feeds = match read_statements(rt.alloc(), b"a\n\n\n\n\n\n\n\nb") {
        Ok(statements) => Some(statements.feeds),
        Err(_) => None,
    };
    assert_eq!(rt; feeds, Some(8));
    Ok(())
}
