// What the buyer's closed days do to a year, beside the weekday calendar.
ghost use Rattle.std.specs.Prelude.{◌≡◌, IfOk};
ghost use Rattle.telling.specs.Years.{first_of, or_builtin, first_month};

use crate::wording::{month_text, optional_day_text};
use calendars::{Calendar, OpenDays, Weekdays};
use std::alloc::{AllocError, Global};
use std::io;

// The first month of the year of the first closed day, or of the first built-in one where the list is empty.
pub fn first_month(heap: Global, closed: &[u32]) -> Result<u32, AllocError>
    ensures { IfOk result (λ m. m ≡ first_month (first_of (or_builtin closed.now))) }
{
    let day = match closed.first() {
        Some(day) => *day,
        None => holidays::builtin_days(heap)?.first().copied().unwrap_or(0),
    };
    let month = dates::month_of(day).unwrap_or(0);
    Ok(month - month % 12)
}

fn tell_month<C: Calendar>(
    rt: &(impl Print + AllocGlobal),
    calendar: &C,
    month: u32,
) -> io::Result<()> {
    let name = month_text(rt.alloc(), month)?;
    let open_days = OpenDays { calendar };
    let weekdays = OpenDays {
        calendar: &Weekdays,
    };
    let here = calendars::count_after_ninth(&open_days, month).unwrap_or(0);
    let there = calendars::count_after_ninth(&weekdays, month).unwrap_or(0);
    println!(rt; "  {name}: {here}; on the weekday calendar {there}.")
}

fn tell_quarter<C: Calendar>(
    rt: &(impl Print + AllocGlobal),
    calendar: &C,
    last_month: u32,
) -> io::Result<()> {
    let heap = rt.alloc();
    let name = month_text(heap, last_month)?;
    let open_days = OpenDays { calendar };
    let weekdays = OpenDays {
        calendar: &Weekdays,
    };
    let fourth = optional_day_text(heap, calendars::with_left(&open_days, last_month, 3))?;
    let third = optional_day_text(heap, calendars::with_left(&open_days, last_month, 2))?;
    let second = optional_day_text(heap, calendars::with_left(&open_days, last_month, 1))?;
    let last = optional_day_text(heap, calendars::with_left(&open_days, last_month, 0))?;
    let other = optional_day_text(heap, calendars::with_left(&weekdays, last_month, 3))?;
    println!(rt;
        "  The quarter that ends with {name} closes with {fourth}, {third}, {second} and {last}."
    )?;
    println!(rt; "    The fourth last is {fourth}; on the weekday calendar it is {other}.")
}

// The open days of the year that begins in `january`.
pub(crate) fn tell<C: Calendar>(
    rt: &(impl Print + AllocGlobal),
    calendar: &C,
    january: u32,
) -> io::Result<()> {
    println!(rt; "Open days after the ninth of each month:")?;
    for month in (0..12).map(|i| january.saturating_add(i)) {
        tell_month(rt, calendar, month)?;
    }
    println!(rt; "The last four open days of each quarter:")?;
    for last_month in (0..4).map(|i| january.saturating_add(3 * i + 2)) {
        tell_quarter(rt, calendar, last_month)?;
    }
    Ok(())
}
