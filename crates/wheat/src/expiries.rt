// The expiries of durum wheat: March, May, September and December of every year, numbered from 0, March 2000, to 399.
ghost use Rattle.std.specs.Prelude.{◌≡◌, ◌<◌, ◌≤◌, MatchOption, IfSome, nat_lt};
ghost use Rattle.std.specs.Option.{option_map};
ghost use Rattle.dates.specs.Dates.{when};
ghost use Rattle.wheat.specs.Wheat.{expiry_month, expiries_before, tenth, last_trading_day, last_day, not_past, front_expiry, FrontIsFirstNotPast};

use calendars::{Calendar, OpenDays};
use dates::DAY_COUNT;

const EXPIRIES: u32 = 400;

// The months of a year in which an expiry falls, from 0 for January.
const MONTHS: [u32; 4] = [2, 4, 8, 11];

// How many expiries of a year come before each of its months.
const BEFORE: [u32; 12] = [0, 0, 0, 1, 1, 2, 2, 2, 2, 3, 3, 3];

pub(crate) fn expiry_month(expiry: u32) -> u32
    requires { expiry < 400 }
    ensures is { result ≡ expiry_month expiry }
    ensures bound { result < 1200 }
{
    12 * (expiry / 4) + MONTHS[(expiry % 4) as usize]
}

// How many expiries come before a month: the number of the first that does not.
fn expiries_before(month: u32) -> u32
    requires { month < 1200 }
    ensures is { result ≡ expiries_before month }
    ensures bound { result < 400 }
{
    4 * (month / 12) + BEFORE[(month % 12) as usize]
}

// The tenth of an expiry's month.
fn tenth_day(expiry: u32) -> Option<u32>
    ensures is { result ≡ when (nat_lt expiry 400) (tenth expiry) }
    ensures range { MatchOption result (400 ≤ expiry) (λ _. expiry < 400) }
{
    if expiry >= EXPIRIES {
        return None;
    }
    Some(dates::first_day(expiry_month(expiry))? + 9)
}

// The last trading day of an expiry: the tenth of its month, or the next open day. Over every calendar T01 has the first
// expiry whose last trading day is not past.
pub fn last_trading_day<C: Calendar>(calendar: &C, expiry: u32) -> Option<u32>
    ensures is { result ≡ last_trading_day (C.opens calendar.now) expiry }
    ensures bound { MatchOption result (400 ≤ expiry) (λ d. d < 36525) }
    ensures law { FrontIsFirstNotPast (C.opens calendar.now) }
{
    let tenth = tenth_day(expiry)?;
    calendars::first_between(&OpenDays { calendar }, tenth, DAY_COUNT)
}

// The same as a number, beyond all days where there is none, as the definition has it: every day can be compared with it.
pub(crate) fn last_day<C: Calendar>(calendar: &C, expiry: u32) -> u32
    ensures is { result ≡ last_day (C.opens calendar.now) expiry }
    ensures bound { result ≤ 36525 }
{
    last_trading_day(calendar, expiry).unwrap_or(DAY_COUNT)
}

// An expiry and its last trading day, as a number.
#[derive(Clone, Copy)]
pub(crate) struct Expiry {
    pub(crate) number: u32,
    pub(crate) last: u32,
    ghost bound: { last ≤ 36525 },
}

// An expiry, or the next where its last trading day is past.
fn not_past<C: Calendar>(calendar: &C, expiry: u32, day: u32) -> Expiry
    requires { expiry < 400 }
    ensures number { result.number ≡ not_past (C.opens calendar.now) expiry day }
    ensures last { result.last ≡ last_day (C.opens calendar.now) result.number }
{
    let last = last_day(calendar, expiry);
    if last < day {
        Expiry {
            number: expiry + 1,
            last: last_day(calendar, expiry + 1),
        }
    } else {
        Expiry {
            number: expiry,
            last,
        }
    }
}

// The expiry of T01: the first from the day's month on that is not past.
pub(crate) fn front_expiry<C: Calendar>(calendar: &C, day: u32) -> Option<Expiry>
    ensures number { option_map (λ x. x.number) result ≡ when (nat_lt day 36525) (front_expiry (C.opens calendar.now) day) }
    ensures last { IfSome result (λ x. x.last ≡ last_day (C.opens calendar.now) x.number) }
{
    let month = dates::month_of(day)?;
    Some(not_past(calendar, expiries_before(month), day))
}
