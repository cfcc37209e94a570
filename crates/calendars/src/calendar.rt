// What a calendar is.
ghost use Rattle.std.specs.Prelude.{◌≡◌, ℕ, Bool};
ghost use Rattle.calendars.specs.Calendars.{Lawful};

use crate::day_set::DaySet;

// A fixed set of open days under the calendar law: no day out of range is open, and every month has at least four open
// days after its ninth. It tells whether a day is open, for every number.
pub trait Calendar {
    ghost opens: { Self → ℕ → Bool };

    fn is_open(&self, day: u32) -> bool
        ensures { result ≡ opens self.now day };

    ghost lawful: { (c : Self) → Lawful (opens c) };
}

// The open days of a calendar, as a set to walk over.
#[derive(Drop)]
pub struct OpenDays<'a, C> {
    pub calendar: &'a C,
}

impl<C: Calendar> DaySet for OpenDays<'_, C> {
    ghost has = { λ o. C.opens o.calendar.now };

    fn contains(&self, day: u32) -> bool {
        self.calendar.is_open(day)
    }
}
