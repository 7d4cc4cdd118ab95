//! What READ finds next in the bytes of the input that are left.
ghost use Rattle.std.specs.Prelude.{◌≡◌, ◌==◌, ◌≤◌, ◌^◌, min, length, position, true, false, MatchOption};
ghost use Rattle.a95_base.specs.Input.{is_whitespace, is_separator, past_whitespace, past_comma, past_gap, word_of, is_number};
ghost use Rattle.a95_base.specs.Input.{number_of, positive_of, integer_of, next_value, record_length};
ghost use Rattle.record_io.specs.Looked.{reading};

/// What stands next in the input.
#[derive(Clone, Copy, PartialEq, Eq)]
pub enum Looked {
    /// An INTEGER, and the number of bytes through its last digit.
    Value { value: i32, used: usize },
    /// Nothing but what may stand before a value.
    End,
    /// Something that is no INTEGER of 32 bits.
    Bad,
}

/// What stands next in the bytes that are left. A comma may stand before it where a value was read before.
pub fn look(rest: &[u8], comma: bool) -> Looked
    ensures { reading result ≡ next_value comma rest.now }
{
    let text = skip_gap(rest, comma);
    if text.is_empty() {
        return Looked::End;
    }
    let word = first_word(text);
    let used = rest.len() - text.len() + word.len();
    match parse_integer(word) {
        Some(value) => Looked::Value { value, used },
        None => Looked::Bad,
    }
}

/// The number of bytes through the next line feed, or of all where there is none.
pub fn after_record(rest: &[u8]) -> usize
    ensures { result ≡ record_length rest.now }
{
    match line_feed(rest) {
        Some(at) => at + 1,
        None => rest.len(),
    }
}

fn line_feed(rest: &[u8]) -> Option<usize>
    ensures { result ≡ position (λ c. c == 10) rest.now }
{
    rest.iter().position(|byte| *byte == b'\n')
}

fn is_whitespace_byte(byte: u8) -> bool
    ensures { result ≡ is_whitespace byte }
{
    byte == b' ' || byte == b'\t' || byte == b'\r' || byte == b'\n'
}

fn is_separator_byte(byte: u8) -> bool
    ensures { result ≡ is_separator byte }
{
    is_whitespace_byte(byte) || byte == b','
}

// The text behind what may stand before a value.
fn skip_gap(text: &[u8], comma: bool) -> &[u8]
    ensures gap { result.now ≡ past_gap comma text.now }
    ensures within { length result.now ≤ length text.now }
{
    if comma {
        skip_whitespace(skip_comma(skip_whitespace(text)))
    } else {
        skip_whitespace(text)
    }
}

fn skip_comma(text: &[u8]) -> &[u8]
    ensures comma { result.now ≡ past_comma text.now }
    ensures within { length result.now ≤ length text.now }
{
    match text {
        [] => text,
        [first, after @ ..] => { if *first == b',' { after } else { text } }
    }
}

fn skip_whitespace(text: &[u8]) -> &[u8]
    ensures passed { result.now ≡ past_whitespace text.now }
    ensures within { length result.now ≤ length text.now }
{
    let mut rest = text;
    while let [first, after @ ..] = rest {
        if !is_whitespace_byte(*first) {
            break;
        }
        rest = after;
    }
    rest
}

// The bytes up to the next separator.
fn first_word(text: &[u8]) -> &[u8]
    ensures word { result.now ≡ word_of text.now }
    ensures within { length result.now ≤ length text.now }
{
    for (end, byte) in text.iter().enumerate() {
        if is_separator_byte(*byte) {
            return &text[..end];
        }
    }
    text
}

// The INTEGER that a word writes.
fn parse_integer(word: &[u8]) -> Option<i32>
    ensures { result ≡ integer_of word.now }
{
    match word {
        [] => None,
        [b'-', digits @ ..] => {
            let magnitude = parse_number(digits)?;
            if magnitude > 1 << 31 {
                return None;
            }
            Some((-(magnitude as i64)) as i32)
        }
        [b'+', digits @ ..] => small_number(digits),
        digits => small_number(digits),
    }
}

fn small_number(digits: &[u8]) -> Option<i32>
    ensures { result ≡ positive_of digits.now }
{
    let number = parse_number(digits)?;
    if number >= 1 << 31 {
        return None;
    }
    Some(number as i32)
}

// No number is told beyond this one, and none that an INTEGER can have is as large.
const MOST: u64 = 1 << 32;

// The number that digits write, or `MOST` where it is larger.
fn parse_number(digits: &[u8]) -> Option<u64>
    ensures { MatchOption result (is_number digits.now ≡ false)
        (λ n. (is_number digits.now ≡ true) × (n ≡ min (number_of digits.now) (2 ^ 32))) }
{
    if digits.is_empty() {
        return None;
    }
    let mut number = 0;
    for digit in digits {
        if !digit.is_ascii_digit() {
            return None;
        }
        number = (10 * number + u64::from(*digit - b'0')).min(MOST);
    }
    Some(number)
}
