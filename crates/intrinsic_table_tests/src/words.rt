//! Words that name no intrinsic.
use intrinsic_table::interface;

const WORDS: [&str; 24] = [
    "",
    "a",
    "ab",
    "abss",
    "ABS",
    "Abs",
    "abs ",
    "max0",
    "maxva",
    "minlocs",
    "real",
    "sqrt",
    "dble",
    "len_tri",
    "lentrim",
    "dot",
    "dotproduct",
    "not",
    "ishft",
    "present",
    "nint",
    "x",
    "_abs",
    "sum2",
];

fn first_intrinsic(words: &[&str]) -> Option<usize> {
    for (i, word) in words.iter().enumerate() {
        if interface(word.as_bytes()).is_some() {
            return Some(i);
        }
    }
    None
}

#[test]
fn other_words_name_no_intrinsic(rt: HostRuntime) {
    assert_eq!(rt; first_intrinsic(&WORDS), None);
}
