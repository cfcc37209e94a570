#![tactic(auto)]
// Days and months from 1 January 2000 to 31 December 2099, by number.
mod date;
mod months;
mod weekday;

pub use date::{Date, date_of, day_of, month_name};
pub use months::{DAY_COUNT, MONTH_COUNT, first_day, month_length, month_of};
pub use weekday::{Weekday, is_weekday, weekday_of};
