// Power over a calendar.
ghost use Rattle.std.specs.Prelude.{◌≡◌, nat_lt};
ghost use Rattle.dates.specs.Dates.{when};
ghost use Rattle.power.specs.Monthly.{class_by};
ghost use Rattle.power.specs.Power.{power};
ghost use Rattle.power.specs.PowerLaws.{power-laws};

use crate::class::{Periods, class_at};
use crate::classes::{CLASSES, D02, M01};
use crate::hours::Profile;
use calendars::Calendar;
use std::array;
use terms::{ClassTerms, Terms};

// A class on a day for which terms answer, and none past the last.
fn class_in(periods: &Periods, second_year: bool, class: u32) -> Option<ClassTerms>
    ensures { result ≡ when (nat_lt class 11) (class_by periods.now.day.month periods.now.day.left second_year class) }
{
    if class < CLASSES {
        Some(periods.class(second_year, class))
    } else {
        None
    }
}

// Power futures of a load profile over a calendar.
#[derive(Drop)]
pub struct Power<C, P> {
    pub calendar: C,
    pub profile: P,
}

impl<C: Calendar, P: Profile> Terms for Power<C, P> {
    ghost meaning = { λ p. power (C.opens p.calendar) (P.hours p.profile) (P.second p.profile) };

    ghost lawful = { λ p. power-laws _ _ _ (C.lawful p.calendar) (P.bounded p.profile) };

    fn classes(&self) -> u32 {
        CLASSES
    }

    fn settling(&self) -> u32 {
        D02
    }

    fn is_open(&self, day: u32) -> bool {
        self.calendar.is_open(day)
    }

    fn month_quantity(&self, month: u32) -> Option<u32> {
        self.profile.hours_of(month)
    }

    fn class_on(&self, day: u32, class: u32) -> Option<ClassTerms> {
        let day = terms::answered_day(&self.calendar, CLASSES, day, class)?;
        Some(class_at(day, self.profile.trades_second_year(), class))
    }

    fn classes_on(&self, day: u32) -> [Option<ClassTerms>; 12] {
        let Some(here) = terms::answered_day(&self.calendar, CLASSES, day, M01) else {
            return [None; 12];
        };
        let second_year = self.profile.trades_second_year();
        let periods = Periods::of(here);
        array::from_fn(|class| class_in(&periods, second_year, class as u32))
    }
}
