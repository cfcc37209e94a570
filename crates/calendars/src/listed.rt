// The list calendar: the weekday calendar with the days of a list closed as well.
ghost use Rattle.std.specs.Prelude.{◌≡◌, ℕ, ◌≤◌, is_some, Decides, MatchResult};
ghost use Rattle.coded.specs.Places.{Rising};
ghost use Rattle.calendars.specs.Calendars.{listed, Four, Ordered};
ghost use Rattle.calendars.specs.Refusals.{Accepted, Refused};
ghost use Rattle.calendars.specs.Lawfulness.{listed-lawful};

use crate::calendar::Calendar;
use crate::day_set::DaySet;
use crate::fault::ListFault;
use crate::law::keeps_law;
use crate::weekdays::Weekdays;
use dates::DAY_COUNT;

// How many days a list may have.
const MOST_CLOSED: usize = 2000;

// Whether the days rise strictly and lie in the range.
fn ordered(closed: &[u32]) -> bool
    ensures { Decides result (Ordered closed.now) }
{
    closed.is_sorted_by(|day, next| day < next) && closed.iter().all(|&day| day < DAY_COUNT)
}

// The weekdays that are not in a rising list.
#[derive(Drop)]
struct Unlisted<'a> {
    closed: &'a [u32],
    ghost rising: { Rising closed.now },
}

impl DaySet for Unlisted<'_> {
    ghost has = { λ u. listed u.closed.now };

    fn contains(&self, day: u32) -> bool {
        Weekdays.is_open(day) && coded::find(self.closed, day).is_none()
    }
}

// The first question about a list that is answered no, if one is.
fn check(closed: &[u32]) -> Result<(), ListFault>
    ensures { MatchResult result (λ _. Accepted closed.now) (Refused closed.now) }
{
    if closed.len() > MOST_CLOSED {
        return Err(ListFault::TooMany);
    }
    if !ordered(closed) {
        return Err(ListFault::Unordered);
    }
    if !keeps_law(&Unlisted { closed }) {
        return Err(ListFault::LawBroken);
    }
    Ok(())
}

// Open from Monday to Friday but for the days of a list. None exists that breaks the calendar law.
#[derive(Drop)]
pub struct ListCalendar {
    closed: Vec<u32>,
    ghost rising: { Rising closed.items },
    ghost four: { Four (listed closed.items) },
}

// A list that makes no calendar, given back unchanged, and why.
#[derive(Drop)]
pub struct RefusedList {
    pub fault: ListFault,
    pub closed: Vec<u32>,
}

impl ListCalendar {
    // The calendar that closes the days of the list too.
    pub fn new(closed: Vec<u32>) -> Result<ListCalendar, RefusedList>
        ensures { MatchResult result (λ c. (c.closed ≡ closed) × Accepted closed.items) (λ e. (e.closed ≡ closed) × Refused closed.items e.fault) }
    {
        match check(&closed) {
            Ok(()) => Ok(ListCalendar { closed }),
            Err(fault) => Err(RefusedList { fault, closed }),
        }
    }
}

impl Calendar for ListCalendar {
    ghost opens = { λ c. listed c.closed.items };

    ghost lawful = { λ c. listed-lawful c.closed.items c.four };

    fn is_open(&self, day: u32) -> bool {
        Unlisted {
            closed: &self.closed,
        }
        .contains(day)
    }
}
