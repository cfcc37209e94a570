#![tactic(auto)]
// Calendars: which days are open, and the walks and counts over any set of days.
mod calendar;
mod day_set;
mod fault;
mod law;
mod listed;
mod walks;
mod weekdays;

pub use calendar::{Calendar, OpenDays};
pub use day_set::DaySet;
pub use fault::ListFault;
pub use law::{count_after_ninth, keeps_law};
pub use listed::{ListCalendar, RefusedList};
pub use walks::{count_between, count_left, first_between, first_in_month, next_after, with_left};
pub use weekdays::Weekdays;
