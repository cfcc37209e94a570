// For which days and classes terms answer.
ghost use Rattle.std.specs.Prelude.{◌≡◌, ◌<◌, ◌≤◌, is_some, IfSome};
ghost use Rattle.calendars.specs.Walks.{left};
ghost use Rattle.dates.specs.Dates.{month_of};
ghost use Rattle.terms.specs.Listing.{answers_for};

use calendars::{Calendar, OpenDays};

// The first day of 2001.
const FIRST_DAY: u32 = 366;

// The first day of 2097, for which terms answer no longer.
pub const END: u32 = 35_430;

// Whether terms over a calendar, with so many classes, answer for a class on a day: on the open days from 2001 to 2096.
pub fn answers_for<C: Calendar>(calendar: &C, classes: u32, day: u32, class: u32) -> bool
    ensures { result ≡ answers_for (C.opens calendar.now) classes day class }
{
    (FIRST_DAY..END).contains(&day) && calendar.is_open(day) && class < classes
}

// The month of a day, which is one of 2001 to 2096, and how many open days are left in it after the day.
#[derive(Clone, Copy, PartialEq, Eq, Debug)]
pub struct DayInMonth {
    pub month: u32,
    pub left: u32,
    ghost in_range: { (12 ≤ month) × (month < 1164) },
}

// The month of a day and the open days left in it, if terms over a calendar, with so many classes, answer for the class on
// that day.
pub fn answered_day<C: Calendar>(
    calendar: &C,
    classes: u32,
    day: u32,
    class: u32,
) -> Option<DayInMonth>
    ensures answers { is_some result ≡ answers_for (C.opens calendar.now) classes day class }
    ensures class { IfSome result (λ d. class < classes) }
    ensures month { IfSome result (λ d. d.month ≡ month_of day) }
    ensures left { IfSome result (λ d. d.left ≡ left (C.opens calendar.now) day) }
{
    if !answers_for(calendar, classes, day, class) {
        return None;
    }
    Some(DayInMonth {
        month: dates::month_of(day)?,
        left: calendars::count_left(&OpenDays { calendar }, day)?,
    })
}
