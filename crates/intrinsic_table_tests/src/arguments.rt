//! Each intrinsic as its line says: its name, its sort, and its arguments in order, those that may be absent in brackets.
use intrinsic_table::{Intrinsic, Sort, argument_place, interface, is_needed, sort_of};

/// A name, its sort, the keywords that are needed, and those that may be absent.
type Row = (
    &'static str,
    Sort,
    &'static [&'static str],
    &'static [&'static str],
);

const ROWS: [Row; 39] = [
    ("abs", Sort::Elemental, &["a"], &[]),
    ("mod", Sort::Elemental, &["a", "p"], &[]),
    ("modulo", Sort::Elemental, &["a", "p"], &[]),
    ("sign", Sort::Elemental, &["a", "b"], &[]),
    ("iand", Sort::Elemental, &["i", "j"], &[]),
    ("ior", Sort::Elemental, &["i", "j"], &[]),
    ("ieor", Sort::Elemental, &["i", "j"], &[]),
    (
        "merge",
        Sort::Elemental,
        &["tsource", "fsource", "mask"],
        &[],
    ),
    ("ichar", Sort::Elemental, &["c"], &[]),
    ("char", Sort::Elemental, &["i"], &[]),
    ("len_trim", Sort::Elemental, &["string"], &[]),
    ("index", Sort::Elemental, &["string", "substring"], &[]),
    ("adjustl", Sort::Elemental, &["string"], &[]),
    ("adjustr", Sort::Elemental, &["string"], &[]),
    ("trim", Sort::ScalarText, &["string"], &[]),
    ("size", Sort::Inquiry, &["array"], &["dim"]),
    ("shape", Sort::Inquiry, &["source"], &[]),
    ("lbound", Sort::Inquiry, &["array"], &["dim"]),
    ("ubound", Sort::Inquiry, &["array"], &["dim"]),
    ("allocated", Sort::Inquiry, &["array"], &[]),
    ("len", Sort::Inquiry, &["string"], &[]),
    ("sum", Sort::Reduction, &["array"], &["dim", "mask"]),
    ("product", Sort::Reduction, &["array"], &["dim", "mask"]),
    ("maxval", Sort::Reduction, &["array"], &["dim", "mask"]),
    ("minval", Sort::Reduction, &["array"], &["dim", "mask"]),
    ("all", Sort::Reduction, &["mask"], &["dim"]),
    ("any", Sort::Reduction, &["mask"], &["dim"]),
    ("count", Sort::Reduction, &["mask"], &["dim"]),
    ("maxloc", Sort::Reduction, &["array"], &["mask"]),
    ("minloc", Sort::Reduction, &["array"], &["mask"]),
    (
        "dot_product",
        Sort::Reduction,
        &["vector_a", "vector_b"],
        &[],
    ),
    ("matmul", Sort::Reduction, &["matrix_a", "matrix_b"], &[]),
    ("transpose", Sort::Rearranging, &["matrix"], &[]),
    ("cshift", Sort::Rearranging, &["array", "shift"], &["dim"]),
    (
        "eoshift",
        Sort::Rearranging,
        &["array", "shift"],
        &["boundary", "dim"],
    ),
    (
        "spread",
        Sort::Rearranging,
        &["source", "dim", "ncopies"],
        &[],
    ),
    ("pack", Sort::Rearranging, &["array", "mask"], &["vector"]),
    (
        "unpack",
        Sort::Rearranging,
        &["vector", "mask", "field"],
        &[],
    ),
    (
        "reshape",
        Sort::Rearranging,
        &["source", "shape"],
        &["pad", "order"],
    ),
];

fn stand_from(which: Intrinsic, first: usize, keywords: &[&str], needed: bool) -> bool {
    for (i, keyword) in keywords.iter().enumerate() {
        let Some(place) = argument_place(which, keyword.as_bytes()) else {
            return false;
        };
        if place < first || place - first != i || is_needed(which, place) != needed {
            return false;
        }
    }
    true
}

fn is_row(row: &Row) -> bool {
    let (name, sort, needed, optional) = *row;
    let Some(which) = interface(name.as_bytes()) else {
        return false;
    };
    sort_of(which) == sort
        && stand_from(which, 0, needed, true)
        && stand_from(which, needed.len(), optional, false)
        && !is_needed(which, needed.len())
}

fn first_wrong(rows: &[Row]) -> Option<usize> {
    for (i, row) in rows.iter().enumerate() {
        if !is_row(row) {
            return Some(i);
        }
    }
    None
}

#[test]
fn each_intrinsic_is_as_its_line_says(rt: HostRuntime) {
    assert_eq!(rt; first_wrong(&ROWS), None);
}

const NUMBERED: [(&str, Option<usize>); 20] = [
    ("a1", Some(0)),
    ("a2", Some(1)),
    ("a3", Some(2)),
    ("a9", Some(8)),
    ("a10", Some(9)),
    ("a65536", Some(65535)),
    ("a2147483648", Some(2147483647)),
    ("a4294967295", Some(4294967294)),
    ("a4294967296", None),
    ("a42949672950", None),
    ("a18446744073709551617", None),
    ("a", None),
    ("a0", None),
    ("a01", None),
    ("a+1", None),
    ("a1_", None),
    ("a 1", None),
    ("A1", None),
    ("b1", None),
    ("1", None),
];

fn first_misplaced(which: Intrinsic, rows: &[(&str, Option<usize>)]) -> Option<usize> {
    for (i, (keyword, place)) in rows.iter().enumerate() {
        if argument_place(which, keyword.as_bytes()) != *place {
            return Some(i);
        }
    }
    None
}

#[test]
fn max_and_min_have_numbered_arguments(rt: HostRuntime) {
    for which in [Intrinsic::Max, Intrinsic::Min] {
        assert_eq!(rt; first_misplaced(which, &NUMBERED), None);
        assert_eq!(rt; sort_of(which), Sort::Elemental);
        assert!(rt; is_needed(which, 0) && is_needed(which, 1) && !is_needed(which, 2));
    }
    assert_eq!(rt; interface(b"max"), Some(Intrinsic::Max));
    assert_eq!(rt; interface(b"min"), Some(Intrinsic::Min));
}

const ABSENT: [(Intrinsic, &str); 12] = [
    (Intrinsic::Abs, "a1"),
    (Intrinsic::Abs, ""),
    (Intrinsic::Abs, "A"),
    (Intrinsic::Mod, "b"),
    (Intrinsic::Maxloc, "dim"),
    (Intrinsic::Matmul, "vector_a"),
    (Intrinsic::Shape, "array"),
    (Intrinsic::Shape, "dim"),
    (Intrinsic::Transpose, "matrix_a"),
    (Intrinsic::Index, "back"),
    (Intrinsic::Size, "kind"),
    (Intrinsic::Reshape, "orders"),
];

fn first_present(rows: &[(Intrinsic, &str)]) -> Option<usize> {
    for (i, (which, keyword)) in rows.iter().enumerate() {
        if argument_place(*which, keyword.as_bytes()).is_some() {
            return Some(i);
        }
    }
    None
}

#[test]
fn other_keywords_have_no_place(rt: HostRuntime) {
    assert_eq!(rt; first_present(&ABSENT), None);
}
