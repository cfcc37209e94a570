// Finding by code number, among numbers and among class lines.
use coded::{ClassLine, find};

// Codes, and where they stand in lists of 3, 5, 8, 13 and 21.
const PLACES: [(u32, Option<usize>); 9] = [
    (3, Some(0)),
    (5, Some(1)),
    (8, Some(2)),
    (13, Some(3)),
    (21, Some(4)),
    (0, None),
    (4, None),
    (20, None),
    (u32::MAX, None),
];

const NUMBERS: [u32; 5] = [3, 5, 8, 13, 21];

const LINES: [ClassLine; 5] = [
    ClassLine {
        class: 3,
        interval: 900,
    },
    ClassLine {
        class: 5,
        interval: 900,
    },
    ClassLine {
        class: 8,
        interval: 3,
    },
    ClassLine {
        class: 13,
        interval: 0,
    },
    ClassLine {
        class: 21,
        interval: 10_000,
    },
];

#[test]
fn found_and_missing(rt: HostRuntime) {
    for (code, place) in PLACES {
        assert_eq!(rt; find(&NUMBERS, code), place);
        assert_eq!(rt; find(&LINES, code), place);
    }
}

#[test]
fn short_lists(rt: HostRuntime) {
    let none: [u32; 0] = [];
    let no_line: [ClassLine; 0] = [];
    assert_eq!(rt; find(&none, 3), None);
    assert_eq!(rt; find(&no_line, 3), None);
    assert_eq!(rt; find(&[3], 3), Some(0));
    assert_eq!(rt; find(&[3], 4), None);
}
