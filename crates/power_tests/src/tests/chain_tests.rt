// All classes of Baseload over the weekday calendar, on the days around each last trading day of a year, its quarters and
// some of its months.
use calendars::Weekdays;
use power::{Baseload, Power};
use std::array;
use terms::{ClassTerms, Terms};

const POWER: Power<Weekdays, Baseload> = Power {
    calendar: Weekdays,
    profile: Baseload,
};

// The successors of the eleven classes on a day on which none moves.
const STAY: [Option<u32>; 11] = [
    Some(0),
    Some(1),
    Some(2),
    Some(3),
    Some(4),
    Some(5),
    Some(6),
    Some(7),
    Some(8),
    Some(9),
    Some(10),
];

// On the last trading day of a quarter.
const QUARTERS: [Option<u32>; 11] = [
    Some(0),
    Some(1),
    Some(2),
    None,
    Some(3),
    Some(4),
    Some(5),
    Some(7),
    Some(8),
    Some(9),
    Some(10),
];

// On the last trading day of a year, which is that of its first quarter too.
const YEARS: [Option<u32>; 11] = [
    Some(0),
    Some(1),
    Some(2),
    None,
    Some(3),
    Some(4),
    Some(5),
    None,
    Some(7),
    Some(9),
    Some(10),
];

// On the last open day of a month.
const MONTHS: [Option<u32>; 11] = [
    Some(9),
    Some(0),
    Some(1),
    Some(3),
    Some(4),
    Some(5),
    Some(6),
    Some(7),
    Some(8),
    Some(10),
    None,
];

// Days, the first months of the classes, and their successors.
const DAYS: [(u32, [u32; 11], [Option<u32>; 11]); 22] = [
    // Monday 1 January 2001
    (366, [13, 14, 15, 15, 18, 21, 24, 24, 36, 12, 11], STAY),
    // 25, 26, 27 and 31 March and 1 April 2008
    (
        3006,
        [99, 100, 101, 99, 102, 105, 108, 108, 120, 98, 97],
        STAY,
    ),
    (
        3007,
        [99, 100, 101, 99, 102, 105, 108, 108, 120, 98, 97],
        QUARTERS,
    ),
    (
        3008,
        [99, 100, 101, 102, 105, 108, 111, 108, 120, 98, 97],
        STAY,
    ),
    (
        3012,
        [99, 100, 101, 102, 105, 108, 111, 108, 120, 98, 97],
        MONTHS,
    ),
    (
        3013,
        [100, 101, 102, 102, 105, 108, 111, 108, 120, 99, 98],
        STAY,
    ),
    // 24, 25, 26 and 30 June 2008
    (
        3097,
        [102, 103, 104, 102, 105, 108, 111, 108, 120, 101, 100],
        STAY,
    ),
    (
        3098,
        [102, 103, 104, 102, 105, 108, 111, 108, 120, 101, 100],
        QUARTERS,
    ),
    (
        3099,
        [102, 103, 104, 105, 108, 111, 114, 108, 120, 101, 100],
        STAY,
    ),
    (
        3103,
        [102, 103, 104, 105, 108, 111, 114, 108, 120, 101, 100],
        MONTHS,
    ),
    // 24, 25, 26 and 30 September 2008
    (
        3189,
        [105, 106, 107, 105, 108, 111, 114, 108, 120, 104, 103],
        STAY,
    ),
    (
        3190,
        [105, 106, 107, 105, 108, 111, 114, 108, 120, 104, 103],
        QUARTERS,
    ),
    (
        3191,
        [105, 106, 107, 108, 111, 114, 117, 108, 120, 104, 103],
        STAY,
    ),
    (
        3195,
        [105, 106, 107, 108, 111, 114, 117, 108, 120, 104, 103],
        MONTHS,
    ),
    // 25, 26, 29 and 31 December 2008 and 1 January 2009
    (
        3281,
        [108, 109, 110, 108, 111, 114, 117, 108, 120, 107, 106],
        STAY,
    ),
    (
        3282,
        [108, 109, 110, 108, 111, 114, 117, 108, 120, 107, 106],
        YEARS,
    ),
    (
        3285,
        [108, 109, 110, 111, 114, 117, 120, 120, 132, 107, 106],
        STAY,
    ),
    (
        3287,
        [108, 109, 110, 111, 114, 117, 120, 120, 132, 107, 106],
        MONTHS,
    ),
    (
        3288,
        [109, 110, 111, 111, 114, 117, 120, 120, 132, 108, 107],
        STAY,
    ),
    // 26, 27 and 31 December 2096
    (
        35_424,
        [
            1164, 1165, 1166, 1164, 1167, 1170, 1173, 1164, 1176, 1163, 1162,
        ],
        YEARS,
    ),
    (
        35_425,
        [
            1164, 1165, 1166, 1167, 1170, 1173, 1176, 1176, 1188, 1163, 1162,
        ],
        STAY,
    ),
    (
        35_429,
        [
            1164, 1165, 1166, 1167, 1170, 1173, 1176, 1176, 1188, 1163, 1162,
        ],
        MONTHS,
    ),
];

#[test]
fn all_classes(rt: HostRuntime) {
    for (day, firsts, successors) in DAYS {
        let told: [Option<ClassTerms>; 11] = array::from_fn(|class| POWER.class_on(
            day,
            class as u32,
        ));
        assert_eq!(rt;
            told.map(|class| Some(class?.months.first)),
            firsts.map(Some)
        );
        assert_eq!(rt; told.map(|class| class?.successor), successors);
        let whole = POWER.classes_on(day);
        assert_eq!(rt; &whole[..11], &told[..]);
        assert_eq!(rt; whole[11], None);
    }
}
