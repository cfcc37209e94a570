// Dates as people write them.
ghost use Rattle.std.specs.Prelude.{◌≡◌, ◌-◌, ◌<◌, ◌≤◌, Some};
ghost use Rattle.dates.specs.Written.{date_in, date_of, day_of, month_name, date_text, DatesAndDays};

use crate::months::{first_day, month_length, month_of};
use std::fmt;

// The first year, and the year after the last.
const FIRST_YEAR: u32 = 2000;

const END_YEAR: u32 = 2100;

// A year, a month of the year from 1 to 12, and a day of the month from 1. Any numbers may stand in it, as people may write
// them, so a month is a number here and no enum: `day_of` tells.
#[derive(Clone, Copy, PartialEq, Eq, Debug)]
pub struct Date {
    pub year: u32,
    pub month: u32,
    pub day: u32,
}

// The date of a day of a month with this first day.
fn date_in(month: u32, first: u32, day: u32) -> Date
    requires { (month < 1200) × ((first ≤ day) × (day < 36525)) }
    ensures { result ≡ date_in month (day - first) }
{
    Date {
        year: FIRST_YEAR + month / 12,
        month: month % 12 + 1,
        day: day - first + 1,
    }
}

// The date of a day.
pub fn date_of(day: u32) -> Option<Date>
    ensures is { result ≡ date_of day }
    ensures law { DatesAndDays }
{
    let month = month_of(day)?;
    let first = first_day(month)?;
    Some(date_in(month, first, day))
}

// The day of a date, if there is such a date from 2000 to 2099.
pub fn day_of(date: Date) -> Option<u32>
    ensures { result ≡ day_of date }
{
    if !(FIRST_YEAR..END_YEAR).contains(&date.year) || !(1..=12).contains(&date.month) {
        return None;
    }
    let month = 12 * (date.year - FIRST_YEAR) + (date.month - 1);
    let first = first_day(month)?;
    let length = month_length(month)?;
    (1..=length)
        .contains(&date.day)
        .then(|| first + (date.day - 1))
}

// The name of a month by its number in the year, 1 to 12.
pub fn month_name(month: u32) -> &'static str
    ensures { result.now ≡ month_name month }
{
    match month {
        1 => "January",
        2 => "February",
        3 => "March",
        4 => "April",
        5 => "May",
        6 => "June",
        7 => "July",
        8 => "August",
        9 => "September",
        10 => "October",
        11 => "November",
        12 => "December",
        _ => "no month",
    }
}

impl fmt::Display for Date {
    ghost output = { λ d. Some (date_text d) };

    fn fmt<W: fmt::Write>(&self, f: &mut fmt::Formatter<W>) -> fmt::Result {
        write!(f, "{} {} {}", self.day, month_name(self.month), self.year)
    }
}
