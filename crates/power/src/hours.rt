// The hours of a month, by load profile.
ghost use Rattle.std.specs.Prelude.{◌≡◌, ℕ, ◌+◌, ◌*◌, ◌≤◌, Bool, true, false, nat_lt};
ghost use Rattle.calendars.specs.Calendars.{weekdays};
ghost use Rattle.calendars.specs.Sets.{between};
ghost use Rattle.dates.specs.Dates.{when};
ghost use Rattle.power.specs.Hours.{baseload, peakload, Bounded};
ghost use Rattle.power.specs.HourLaws.{baseload-bounded, peakload-bounded};

use calendars::{OpenDays, Weekdays};

// The months of a year in which the clock goes forward and back, from 0 for January.
const MARCH: u32 = 2;

const OCTOBER: u32 = 9;

// A load profile: how many hours each month has, and whether the second year is tradable.
pub trait Profile {
    ghost hours: { Self → ℕ → ℕ };

    ghost second: { Self → Bool };

    fn hours_of(&self, month: u32) -> Option<u32>
        ensures { result ≡ when (nat_lt month 1200) (hours self.now month) };

    fn trades_second_year(&self) -> bool
        ensures { result ≡ second self.now };

    ghost bounded: { (p : Self) → Bounded (hours p) };
}

// All hours of the month.
#[derive(Clone, Copy)]
pub struct Baseload;

impl Profile for Baseload {
    ghost hours = { λ _. baseload };

    ghost second = { λ _. true };

    ghost bounded = { λ p. baseload-bounded };

    fn hours_of(&self, month: u32) -> Option<u32> {
        let hours = 24 * dates::month_length(month)?;
        Some(match month % 12 {
            MARCH => hours - 1,
            OCTOBER => hours + 1,
            _ => hours,
        })
    }

    fn trades_second_year(&self) -> bool {
        true
    }
}

// Twelve hours for each Monday to Friday from a day on, before another.
fn peak_hours(from: u32, to: u32) -> u32
    requires { (from ≤ to) × (to ≤ from + 31) }
    ensures { result ≡ 12 * between weekdays from to }
{
    let weekdays = OpenDays {
        calendar: &Weekdays,
    };
    12 * calendars::count_between(&weekdays, from, to)
}

// Twelve hours of each Monday to Friday.
#[derive(Clone, Copy)]
pub struct Peakload;

impl Profile for Peakload {
    ghost hours = { λ _. peakload };

    ghost second = { λ _. false };

    ghost bounded = { λ p. peakload-bounded };

    fn hours_of(&self, month: u32) -> Option<u32> {
        let first = dates::first_day(month)?;
        let length = dates::month_length(month)?;
        Some(peak_hours(first, first + length))
    }

    fn trades_second_year(&self) -> bool {
        false
    }
}
