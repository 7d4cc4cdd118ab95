//! Sections: their counts, places and bounds, where two meet, and which are contiguous.
use rank_shape::{Place, Shape};
use section_algebra::Section;
use std::test::Fail;

/// A triplet: first, last, stride.
type Triplet = (i32, i32, i32);

/// A triplet, and how many subscripts it has; -1 where the stride is 0.
const COUNTS: [(Triplet, i64); 14] = [
    ((1, 5, 1), 5),
    ((1, 5, 2), 3),
    ((1, 6, 2), 3),
    ((5, 1, -1), 5),
    ((5, 1, -2), 3),
    ((6, 1, -4), 2),
    ((5, 4, 1), 0),
    ((4, 5, -1), 0),
    ((7, 7, 3), 1),
    ((7, 7, -3), 1),
    ((-3, 3, 3), 3),
    ((1, 5, 0), -1),
    ((i32::MIN, i32::MAX, 1), 1 << 32),
    ((i32::MAX, i32::MIN, i32::MIN), 2),
];

fn row(triplet: &Triplet) -> Option<Section<1>> {
    Section::new(
        [i64::from(triplet.0)],
        [i64::from(triplet.1)],
        [i64::from(triplet.2)],
    )
}

fn has_count(case: &(Triplet, i64)) -> bool {
    match row(&case.0) {
        Some(section) => section.count(0) == case.1,
        None => case.1 == -1,
    }
}

#[test]
fn triplets_are_counted(rt: HostRuntime) -> Result<(), Fail> {
    assert!(rt; COUNTS.iter().all(has_count));
    Ok(())
}

/// Two triplets, and whether they have a subscript in common.
const MEETINGS: [(Triplet, Triplet, bool); 15] = [
    ((1, 9, 2), (2, 8, 2), false),
    ((1, 9, 2), (2, 9, 3), true),
    ((1, 9, 2), (8, 2, -3), true),
    ((9, 1, -2), (8, 2, -2), false),
    ((1, 4, 1), (5, 9, 1), false),
    ((1, 5, 1), (5, 9, 1), true),
    ((1, 0, 1), (1, 9, 1), false),
    ((1, 9, 1), (9, 10, -1), false),
    ((4, 4, 7), (1, 9, 3), true),
    ((5, 5, 7), (1, 9, 3), false),
    ((0, 60, 6), (3, 60, 10), false),
    ((0, 60, 6), (4, 60, 10), true),
    ((0, 20, 6), (4, 20, 10), false),
    (
        (i32::MIN, i32::MAX, 65536),
        (i32::MAX, i32::MIN, -65535),
        true,
    ),
    ((i32::MIN, i32::MAX, 65536), (1, i32::MAX, 65536), false),
];

fn meets_as_told(case: &(Triplet, Triplet, bool)) -> bool {
    match (row(&case.0), row(&case.1)) {
        (Some(section), Some(other)) => {
            section.meets(&other) == case.2 && other.meets(&section) == case.2
        }
        _ => false,
    }
}

#[test]
fn rows_meet(rt: HostRuntime) -> Result<(), Fail> {
    assert!(rt; MEETINGS.iter().all(meets_as_told));
    Ok(())
}

/// Two triplets, bounds of two dimensions, and whether all places lie within them.
const BOUNDS: [((Triplet, Triplet), (i32, i32), (i32, i32), bool); 8] = [
    (((1, 3, 1), (1, 4, 1)), (1, 3), (1, 4), true),
    (((1, 3, 1), (1, 4, 1)), (1, 3), (1, 3), false),
    (((0, 3, 1), (1, 4, 1)), (1, 3), (1, 4), false),
    (((3, 1, -2), (4, 2, -2)), (1, 3), (2, 4), true),
    (((1, 4, 2), (1, 6, 3)), (1, 3), (1, 4), true),
    (((1, 9, 1), (2, 1, 1)), (1, 3), (1, 4), true),
    (((2, 1, 1), (1, 9, 1)), (1, 0), (1, 0), true),
    (((-5, -5, 1), (0, 0, 1)), (-5, -5), (0, 0), true),
];

fn plane(triplets: &(Triplet, Triplet)) -> Option<Section<2>> {
    let (first, second) = triplets;
    Section::new(
        [i64::from(first.0), i64::from(second.0)],
        [i64::from(first.1), i64::from(second.1)],
        [i64::from(first.2), i64::from(second.2)],
    )
}

fn within_as_told(case: &((Triplet, Triplet), (i32, i32), (i32, i32), bool)) -> bool {
    let lower = [i64::from(case.1.0), i64::from(case.2.0)];
    let upper = [i64::from(case.1.1), i64::from(case.2.1)];
    match plane(&case.0) {
        Some(section) => section.within(&lower, &upper) == case.3,
        None => false,
    }
}

#[test]
fn bounds_hold_every_place(rt: HostRuntime) -> Result<(), Fail> {
    assert!(rt; BOUNDS.iter().all(within_as_told));
    Ok(())
}

#[test]
fn places_are_named(rt: HostRuntime) -> Result<(), Fail> {
    let section = Section::new([9, -2], [1, 4], [-3, 2]).ok_or("plane")?;
    assert_eq!(rt; (section.count(0), section.count(1)), (3, 4));
    assert_eq!(rt; section.place(&Place { at: [2, 3] }).at, [3, 4]);
    let cube = Section::new(
        [1, 5, 1, 3, 1, 1, 7],
        [2, 1, 2, 3, 2, 2, 1],
        [1, -4, 1, 1, 1, 1, -3],
    )
    .ok_or("cube")?;
    assert_eq!(rt;
        cube.place(&Place {
            at: [1, 1, 0, 0, 1, 0, 2]
        })
        .at,
        [2, 1, 1, 3, 2, 1, 1]
    );
    assert!(rt; cube.within(&[1; 7], &[2, 5, 2, 3, 2, 2, 7]));
    assert!(rt; !cube.within(&[1; 7], &[2, 5, 2, 3, 2, 2, 6]));
    assert!(rt; cube.meets(&cube));
    Ok(())
}

/// Two triplets in an array of four rows and three columns, and whether the places are consecutive.
const RUNS: [((Triplet, Triplet), bool); 12] = [
    (((1, 4, 1), (1, 3, 1)), true),
    (((1, 4, 1), (2, 3, 1)), true),
    (((2, 3, 1), (2, 2, 1)), true),
    (((2, 3, 1), (1, 2, 1)), false),
    (((1, 4, 3), (2, 2, 1)), false),
    (((4, 1, -1), (1, 1, 1)), false),
    (((3, 3, -1), (2, 2, 5)), true),
    (((1, 4, 1), (1, 3, 2)), false),
    (((1, 4, 1), (3, 2, -1)), false),
    (((1, 1, 1), (1, 3, 1)), false),
    (((3, 2, 1), (1, 9, 1)), true),
    (((4, 4, 1), (3, 3, 1)), true),
];

fn runs_as_told(case: &((Triplet, Triplet), bool)) -> bool {
    match (plane(&case.0), Shape::new([4, 3])) {
        (Some(section), Some(whole)) => {
            section.within(&[1, 1], &[4, 3]) && section.is_contiguous(&whole) == case.1
        }
        _ => false,
    }
}

#[test]
fn some_sections_are_contiguous(rt: HostRuntime) -> Result<(), Fail> {
    assert!(rt; RUNS.iter().all(runs_as_told));
    Ok(())
}
