// Days, dates and weekdays.
use dates::{Date, date_of, day_of, weekday_of};
use std::test::Fail;

// Days with their years, months and days of the month.
const DAYS: [(u32, u32, u32, u32); 14] = [
    (0, 2000, 1, 1),
    (30, 2000, 1, 31),
    (31, 2000, 2, 1),
    (59, 2000, 2, 29),
    (60, 2000, 3, 1),
    (365, 2000, 12, 31),
    (366, 2001, 1, 1),
    (424, 2001, 2, 28),
    (425, 2001, 3, 1),
    (1520, 2004, 2, 29),
    (3007, 2008, 3, 26),
    (3282, 2008, 12, 26),
    (35_123, 2096, 2, 29),
    (36_524, 2099, 12, 31),
];

#[test]
fn dates_and_days(rt: HostRuntime) -> Result<(), Fail> {
    for (number, year, month, day) in DAYS {
        let date = Date { year, month, day };
        assert_eq!(rt; day_of(date), Some(number));
        let told = date_of(number).ok_or("no date")?;
        assert!(rt; told.year == year && told.month == month && told.day == day);
    }
    Ok(())
}

// No such date from 2000 to 2099.
const NO_DATES: [(u32, u32, u32); 9] = [
    (2001, 2, 29),
    (2100, 2, 29),
    (2100, 1, 1),
    (1999, 12, 31),
    (2008, 4, 31),
    (2008, 3, 0),
    (2008, 0, 1),
    (2008, 13, 1),
    (0, 0, 0),
];

#[test]
fn no_dates(rt: HostRuntime) {
    for (year, month, day) in NO_DATES {
        assert_eq!(rt; day_of(Date { year, month, day }), None);
    }
    assert!(rt; date_of(36_525).is_none());
    assert!(rt; date_of(u32::MAX).is_none());
}

// Days as they are written.
const WRITTEN: [(u32, &str); 6] = [
    (0, "Saturday 1 January 2000"),
    (59, "Tuesday 29 February 2000"),
    (3007, "Wednesday 26 March 2008"),
    (3282, "Friday 26 December 2008"),
    (35_429, "Monday 31 December 2096"),
    (36_524, "Thursday 31 December 2099"),
];

#[test]
fn written(rt: HostRuntime) -> Result<(), Fail> {
    for (day, text) in WRITTEN {
        let date = date_of(day).ok_or("no date")?;
        let weekday = weekday_of(day);
        assert_eq!(rt; format!(in rt.alloc(); "{weekday} {date}")?.as_str(), text);
    }
    Ok(())
}
