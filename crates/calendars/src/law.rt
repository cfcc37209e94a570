// The calendar law, asked of any set of days.
ghost use Rattle.std.specs.Prelude.{◌≡◌, ◌+◌, ◌<◌, Decides};
ghost use Rattle.calendars.specs.Calendars.{after_ninth, Four};

use crate::day_set::DaySet;
use crate::walks::{count_between, days_of};
use dates::MONTH_COUNT;

// How many days of the set come after a month's ninth, within the month.
pub fn count_after_ninth<S: DaySet>(days: &S, month: u32) -> Option<u32>
    ensures { result ≡ after_ninth (S.has days.now) month }
{
    let month = days_of(month)?;
    Some(count_between(days, month.start + 9, month.end))
}

// Whether every month has at least four days of the set after its ninth.
pub fn keeps_law<S: DaySet>(days: &S) -> bool
    ensures { Decides result (Four (S.has days.now)) }
{
    (0..MONTH_COUNT).all(|month| count_after_ninth(days, month).is_some_and(|count| count >= 4))
}
