// Classes of Baseload over the weekday calendar.
use calendars::Weekdays;
use power::{Baseload, Peakload, Power, class_name};
use std::test::Fail;
use terms::{ClassTerms, Months, Terms, heir};

const BASE: Power<Weekdays, Baseload> = Power {
    calendar: Weekdays,
    profile: Baseload,
};

const PEAK: Power<Weekdays, Peakload> = Power {
    calendar: Weekdays,
    profile: Peakload,
};

const NONE: [bool; 12] = [false; 12];

// M01, M02, M03.
const MONTHS: [bool; 12] = [
    true, true, true, false, false, false, false, false, false, false, false, false,
];

// M01, M02, M03, Q02, Q03, Q04.
const ALL: [bool; 12] = [
    true, true, true, false, true, true, true, false, false, false, false, false,
];

// Days, classes, their first months and how many, whose interval they take, their parts and their successors.
const CLASSES: [(u32, u32, u32, u32, u32, [bool; 12], Option<u32>); 28] = [
    // Monday 1 January 2001
    (366, 9, 12, 1, 9, NONE, Some(9)),
    (366, 10, 11, 1, 10, NONE, Some(10)),
    // Tuesday 25 March 2008
    (3006, 3, 99, 3, 3, NONE, Some(3)),
    (3006, 4, 102, 3, 4, NONE, Some(4)),
    // Wednesday 26 March 2008, on which the second quarter trades last
    (3007, 0, 99, 1, 0, NONE, Some(0)),
    (3007, 1, 100, 1, 1, NONE, Some(1)),
    (3007, 2, 101, 1, 2, NONE, Some(2)),
    (3007, 3, 99, 3, 3, MONTHS, None),
    (3007, 4, 102, 3, 4, NONE, Some(3)),
    (3007, 6, 108, 3, 6, NONE, Some(5)),
    (3007, 7, 108, 12, 7, NONE, Some(7)),
    (3007, 8, 120, 12, 8, NONE, Some(8)),
    // Thursday 27 March 2008
    (3008, 0, 99, 1, 0, NONE, Some(0)),
    (3008, 3, 102, 3, 3, NONE, Some(3)),
    (3008, 6, 111, 3, 6, NONE, Some(6)),
    // Friday 28 March 2008, with one more open day in the month
    (3009, 0, 99, 1, 9, NONE, Some(0)),
    // Monday 31 March 2008, the last open day of the month
    (3012, 0, 99, 1, 9, NONE, Some(9)),
    (3012, 1, 100, 1, 1, NONE, Some(0)),
    (3012, 9, 98, 1, 9, NONE, Some(10)),
    (3012, 10, 97, 1, 10, NONE, None),
    // Tuesday 1 April 2008
    (3013, 0, 100, 1, 0, NONE, Some(0)),
    (3013, 10, 98, 1, 10, NONE, Some(10)),
    // Friday 26 December 2008, on which the year 2009 trades last
    (3282, 3, 108, 3, 3, MONTHS, None),
    (3282, 7, 108, 12, 7, ALL, None),
    (3282, 8, 120, 12, 8, NONE, Some(7)),
    // Monday 29 December 2008
    (3285, 7, 120, 12, 7, NONE, Some(7)),
    // Monday 31 December 2096
    (35_429, 6, 1176, 3, 6, NONE, Some(6)),
    (35_429, 8, 1188, 12, 8, NONE, Some(8)),
];

#[test]
fn classes(rt: HostRuntime) {
    for (day, class, first, count, interval_class, parts, successor) in CLASSES {
        let expected = ClassTerms {
            months: Months { first, count },
            tradable: class < 9,
            interval_class,
            parts,
            successor,
        };
        assert_eq!(rt; BASE.class_on(day, class), Some(expected));
    }
}

// The last day of 2000, the first of 2097, a Saturday, and a class too many.
#[test]
fn no_answers(rt: HostRuntime) {
    for (day, class) in [(365, 0), (35_430, 0), (3010, 0), (3007, 11)] {
        assert_eq!(rt; BASE.class_on(day, class), None);
    }
}

// The second year of Peakload is not tradable.
#[test]
fn peakload(rt: HostRuntime) -> Result<(), Fail> {
    for class in 0..11 {
        let told = PEAK.class_on(3007, class).ok_or("no answer")?;
        assert_eq!(rt; told.tradable, class < 8);
    }
    Ok(())
}

// Days, classes, their months, and the classes that these are handed over to.
const HEIRS: [(u32, u32, u32, Option<u32>); 7] = [
    // Friday 26 December 2008: of the year 2009, January goes to M01 and April to Q01.
    (3282, 7, 108, Some(0)),
    (3282, 7, 110, Some(2)),
    (3282, 7, 111, Some(3)),
    (3282, 7, 119, Some(5)),
    (3282, 7, 120, None),
    // Monday 31 March 2008: March goes to D02, and February is done.
    (3012, 9, 98, Some(10)),
    (3012, 10, 97, None),
];

#[test]
fn heirs(rt: HostRuntime) {
    for (day, class, month, next) in HEIRS {
        assert_eq!(rt; heir(&BASE, day, class, month), next);
    }
}

#[test]
fn names(rt: HostRuntime) {
    for (class, name) in [
        (0, Some("M01")),
        (3, Some("Q01")),
        (10, Some("D02")),
        (11, None),
    ] {
        assert_eq!(rt; class_name(class), name);
    }
}
