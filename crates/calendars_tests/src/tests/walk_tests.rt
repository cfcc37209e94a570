// Walks over the weekday calendar.
use calendars::{OpenDays, Weekdays, count_left, first_in_month, next_after, with_left};

// March 2008 and December 2008.
const MARCH: u32 = 98;

const DECEMBER: u32 = 107;

// Wednesday 26 March 2008 and Friday 26 December 2008, the fourth last weekdays of their months.
const MARCH_26: u32 = 3007;

const DECEMBER_26: u32 = 3282;

#[test]
fn days_of_months(rt: HostRuntime) {
    let days = OpenDays {
        calendar: &Weekdays,
    };
    assert_eq!(rt; first_in_month(&days, MARCH), Some(2984));
    assert_eq!(rt; first_in_month(&days, 1200), None);
    assert_eq!(rt; with_left(&days, MARCH, 3), Some(MARCH_26));
    assert_eq!(rt; with_left(&days, DECEMBER, 3), Some(DECEMBER_26));
    assert_eq!(rt; with_left(&days, MARCH, 0), Some(3012));
    assert_eq!(rt; with_left(&days, MARCH, 31), None);
    assert_eq!(rt; with_left(&days, 1200, 3), None);
}

#[test]
fn next_days(rt: HostRuntime) {
    let days = OpenDays {
        calendar: &Weekdays,
    };
    assert_eq!(rt; next_after(&days, MARCH_26), Some(3008));
    // From Friday 28 March to Monday 31 March.
    assert_eq!(rt; next_after(&days, 3009), Some(3012));
    assert_eq!(rt; next_after(&days, 36_523), Some(36_524));
    assert_eq!(rt; next_after(&days, 36_524), None);
    assert_eq!(rt; next_after(&days, u32::MAX), None);
}

#[test]
fn days_left(rt: HostRuntime) {
    let days = OpenDays {
        calendar: &Weekdays,
    };
    assert_eq!(rt; count_left(&days, MARCH_26), Some(3));
    // On Saturday 29 and Sunday 30 March the Monday is still to come.
    assert_eq!(rt; count_left(&days, 3010), Some(1));
    assert_eq!(rt; count_left(&days, 3011), Some(1));
    assert_eq!(rt; count_left(&days, 3012), Some(0));
    assert_eq!(rt; count_left(&days, 36_525), None);
}
