// The weekday calendar.
ghost use Rattle.calendars.specs.Calendars.{weekdays};
ghost use Rattle.calendars.specs.Lawfulness.{weekdays-lawful};

use crate::calendar::Calendar;
use dates::{DAY_COUNT, is_weekday};

// Open from Monday to Friday.
#[derive(Clone, Copy)]
pub struct Weekdays;

impl Calendar for Weekdays {
    ghost opens = { λ _. weekdays };

    ghost lawful = { λ c. weekdays-lawful };

    fn is_open(&self, day: u32) -> bool {
        day < DAY_COUNT && is_weekday(day)
    }
}
