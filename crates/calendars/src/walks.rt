// Counts and walks over a set of days.
ghost use Rattle.std.specs.Prelude.{◌≡◌, ℕ, ◌+◌, ◌-◌, ◌<◌, ◌≤◌, if◌then◌else◌, MatchOption};
ghost use Rattle.calendars.specs.Sets.{between};
ghost use Rattle.calendars.specs.Walks.{days_of, first_from, First, NoneIn, Next, next_after, first_in_month, left_in_month, leaves, with_left};

use crate::day_set::DaySet;
use dates::{DAY_COUNT, first_day, month_length, month_of};
use std::ops::Range;

// The days of a month.
pub(crate) fn days_of(month: u32) -> Option<Range<u32>>
    ensures is { result ≡ days_of month }
    ensures inside { MatchOption result (1200 ≤ month) (λ d. (d.start ≤ d.end) × (d.end ≤ d.start + 31) × (d.end ≤ 36525)) }
{
    let first = first_day(month)?;
    let length = month_length(month)?;
    Some(first..first + length)
}

// How many days of the set there are from a day on, before another.
pub fn count_between<S: DaySet>(days: &S, from: u32, to: u32) -> u32
    ensures is { result ≡ between (S.has days.now) from to }
    ensures bound { result ≤ to - from }
{
    (from..to).map(|day| u32::from(days.contains(day))).sum()
}

// The first day of the set from a day on, before another.
pub fn first_between<S: DaySet>(days: &S, from: u32, to: u32) -> Option<u32>
    ensures is { result ≡ first_from (S.has days.now) from (to - from) }
    ensures least { MatchOption result (NoneIn (S.has days.now) from to) (First (S.has days.now) from to) }
{
    (from..to).find(|&day| days.contains(day))
}

// The next day of the set after a day: the least, up to 31 December 2099.
pub fn next_after<S: DaySet>(days: &S, day: u32) -> Option<u32>
    ensures is { result ≡ next_after (S.has days.now) day }
    ensures least { MatchOption result (NoneIn (S.has days.now) (day + 1) 36525) (λ e. Next (S.has days.now) day e × (e < 36525)) }
{
    if day >= DAY_COUNT {
        return None;
    }
    first_between(days, day + 1, DAY_COUNT)
}

// The first day of the set in a month.
pub fn first_in_month<S: DaySet>(days: &S, month: u32) -> Option<u32>
    ensures { result ≡ first_in_month (S.has days.now) month }
{
    let month = days_of(month)?;
    first_between(days, month.start, month.end)
}

// How many days of the set come after a day within its month.
pub fn count_left<S: DaySet>(days: &S, day: u32) -> Option<u32>
    ensures is { result ≡ left_in_month (S.has days.now) day }
    ensures bound { MatchOption result (36525 ≤ day) (λ n. n ≤ 30) }
{
    let month = days_of(month_of(day)?)?;
    Some(count_between(days, day + 1, month.end))
}

// The days of a set after which so many more come within the month.
#[derive(Drop)]
struct WithLeft<'a, S> {
    days: &'a S,
    left: u32,
}

impl<S: DaySet> DaySet for WithLeft<'_, S> {
    ghost has = { λ w. leaves (S.has w.days.now) w.left };

    fn contains(&self, day: u32) -> bool {
        self.days.contains(day) && count_left(self.days, day) == Some(self.left)
    }
}

// The day of the set in a month after which just so many more come: 0 tells the last, 3 the fourth last.
pub fn with_left<S: DaySet>(days: &S, month: u32, left: u32) -> Option<u32>
    ensures { result ≡ with_left (S.has days.now) month left }
{
    first_in_month(&WithLeft { days, left }, month)
}
