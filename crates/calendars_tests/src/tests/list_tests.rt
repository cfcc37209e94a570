// The list calendar: which lists it takes, and why it refuses others.
use calendars::{Calendar, ListCalendar};
use std::alloc::{AllocError, Global};
use std::test::Fail;

// The number of the question that a list fails, or 0.
fn refusal(closed: Vec<u32>) -> u8 {
    ListCalendar::new(closed)
        .err()
        .map_or(0, |refused| refused.fault.number())
}

// The weekdays, or the Saturdays and Sundays, from one day on, before another.
fn days(heap: Global, from: u32, to: u32, weekdays: bool) -> Result<Vec<u32>, AllocError> {
    (from..to)
        .filter(|&day| dates::is_weekday(day) == weekdays)
        .collect(heap)
}

#[test]
fn lengths(rt: HostRuntime) -> Result<(), Fail> {
    let heap = rt.alloc();
    assert_eq!(rt; refusal(Vec::new(heap)), 0);
    assert_eq!(rt; refusal(days(heap, 0, 1, false)?), 0);
    // Of the first 1,000 weeks, and one Saturday more.
    assert_eq!(rt; refusal(days(heap, 0, 7000, false)?), 0);
    assert_eq!(rt; refusal(days(heap, 0, 7001, false)?), 4);
    // The length is asked first, then the order.
    assert_eq!(rt; refusal(vec![in heap; 0; 2001]?), 4);
    Ok(())
}

// Lists, and the questions that they fail.
const LISTS: [(&[u32], u8); 7] = [
    (&[3281, 3282], 0),
    (&[3281, 3281], 5),
    (&[3282, 3281], 5),
    (&[0, 1, 2, 4, 3], 5),
    (&[36_524], 0),
    (&[36_525], 5),
    (&[u32::MAX], 5),
];

#[test]
fn orders(rt: HostRuntime) -> Result<(), Fail> {
    for (closed, number) in LISTS {
        assert_eq!(rt; refusal(closed.to_vec(rt.alloc())?), number);
    }
    Ok(())
}

// From Monday 10 March 2008, the day after the ninth, up to Wednesday 26 March, the fourth last weekday of the month.
const MARCH_10: u32 = 2991;

const MARCH_26: u32 = 3007;

#[test]
fn four_stay_open(rt: HostRuntime) -> Result<(), Fail> {
    let heap = rt.alloc();
    assert_eq!(rt; refusal(days(heap, MARCH_10, MARCH_26, true)?), 0);
    assert_eq!(rt; refusal(days(heap, MARCH_10, MARCH_26 + 1, true)?), 6);
    // The order is asked before the law.
    let mut closed = days(heap, MARCH_10, MARCH_26 + 1, true)?;
    closed.push(0)?;
    assert_eq!(rt; refusal(closed), 5);
    Ok(())
}

#[test]
fn lists_come_back(rt: HostRuntime) -> Result<(), Fail> {
    let heap = rt.alloc();
    match ListCalendar::new(days(heap, MARCH_10, MARCH_26 + 1, true)?) {
        Ok(_) => Err(Fail::new("taken")),
        Err(refused) => {
            assert_eq!(rt; refused.closed, days(heap, MARCH_10, MARCH_26 + 1, true)?);
            Ok(())
        },
    }
}

#[test]
fn closed_days(rt: HostRuntime) -> Result<(), Fail> {
    let Ok(calendar) = ListCalendar::new([3280, 3281].to_vec(rt.alloc())?) else {
        return Err(Fail::new("refused"));
    };
    assert!(rt; calendar.is_open(3279) && !calendar.is_open(3280) && !calendar.is_open(3281));
    assert!(rt; calendar.is_open(3282) && !calendar.is_open(3283) && !calendar.is_open(u32::MAX));
    Ok(())
}
