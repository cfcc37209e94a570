// Hours of months, quarters and years.
use calendars::Weekdays;
use power::{Baseload, Peakload, Power, Profile};
use terms::quantity_of;

#[test]
fn months(rt: HostRuntime) {
    // February, March and October 2008, and February 2009.
    assert_eq!(rt; Baseload.hours_of(97), Some(696));
    assert_eq!(rt; Baseload.hours_of(98), Some(743));
    assert_eq!(rt; Baseload.hours_of(105), Some(745));
    assert_eq!(rt; Baseload.hours_of(109), Some(672));
    // January 2021 has 21 weekdays.
    assert_eq!(rt; Peakload.hours_of(252), Some(252));
    assert_eq!(rt; Baseload.hours_of(1200), None);
    assert_eq!(rt; Peakload.hours_of(1200), None);
}

// Hours of a class on a day of Baseload: on 1 March 2007, 3 December 2007, 26 March 2008, 1 December 2008, and on
// Saturday 29 March 2008, for which there is none.
const SUMS: [(u32, u32, u32); 11] = [
    (2616, 7, 8784),
    (2893, 0, 744),
    (2893, 3, 2183),
    (2893, 4, 2184),
    (2893, 5, 2208),
    (2893, 6, 2209),
    (2893, 8, 8760),
    (3007, 3, 2184),
    (3257, 3, 2159),
    (3257, 7, 8760),
    (3010, 3, 0),
];

#[test]
fn quarters_and_years(rt: HostRuntime) {
    let power = Power {
        calendar: Weekdays,
        profile: Baseload,
    };
    for (day, class, hours) in SUMS {
        assert_eq!(rt; quantity_of(&power, day, class), hours);
    }
}
