// A class, from a day's month and the open days left in it.
ghost use Rattle.std.specs.Prelude.{◌≡◌, ℕ, ◌<◌, ◌≤◌, if◌then◌else◌};
ghost use Rattle.power.specs.Classes.{length_of, place_of, earlier, no_parts, cascade};
ghost use Rattle.power.specs.Monthly.{own_by, turns_by, PeriodOn, class_by};
ghost use Rattle.terms.specs.Period.{months_in};

use crate::classes::{D01, M01, Q01, Y01, Y02, row};
use terms::{ClassRow, ClassTerms, DayInMonth, Months, Period};

// Whether a class is a part, class by class from M01 on.
const Y: bool = true;

const N: bool = false;

const NO_PARTS: [bool; 12] = [N, N, N, N, N, N, N, N, N, N, N, N];

// M01, M02, M03.
const QUARTER_PARTS: [bool; 12] = [Y, Y, Y, N, N, N, N, N, N, N, N, N];

// M01, M02, M03, Q02, Q03, Q04.
const YEAR_PARTS: [bool; 12] = [Y, Y, Y, N, Y, Y, Y, N, N, N, N, N];

// The number of the day's own period, one further on the last three open days of a quarter or a year.
fn own(period: Period, day: DayInMonth) -> u32
    ensures is { result ≡ own_by (months_in period) day.month day.left }
    ensures bound { result ≤ 1200 }
{
    let months = period.months();
    if period != Period::Month && day.month % months == months - 1 && day.left < 3 {
        day.month / months + 1
    } else {
        day.month / months
    }
}

// Whether the classes with such a period move up after the day.
fn turns(period: Period, day: DayInMonth) -> bool
    ensures { result ≡ turns_by (months_in period) day.month day.left }
{
    let months = period.months();
    match period {
        Period::Month => day.left == 0,
        Period::Quarter | Period::Year => day.month % months == months - 1 && day.left == 3,
    }
}

fn parts(class: u32, turning: bool) -> [bool; 12]
    ensures { result ≡ (if turning then cascade class else no_parts) }
{
    match class {
        Q01 if turning => QUARTER_PARTS,
        Y01 if turning => YEAR_PARTS,
        _ => NO_PARTS,
    }
}

// What a day is to the classes of one period length: the number of its own period, and whether they move up after it.
#[derive(Clone, Copy)]
struct PeriodDay {
    own: u32,
    turning: bool,
}

fn period_day(period: Period, day: DayInMonth) -> PeriodDay
    ensures { PeriodOn (months_in period) day.month day.left result }
{
    PeriodDay {
        own: own(period, day),
        turning: turns(period, day),
    }
}

// What a day is to the classes of each length, worked out once for all of them.
#[derive(Clone, Copy)]
pub(crate) struct Periods {
    day: DayInMonth,
    month: PeriodDay,
    quarter: PeriodDay,
    year: PeriodDay,
    ghost months: { PeriodOn 1 day.month day.left month },
    ghost quarters: { PeriodOn 3 day.month day.left quarter },
    ghost years: { PeriodOn 12 day.month day.left year },
}

impl Periods {
    pub(crate) fn of(day: DayInMonth) -> Periods
        ensures { result.day ≡ day }
    {
        Periods {
            day,
            month: period_day(Period::Month, day),
            quarter: period_day(Period::Quarter, day),
            year: period_day(Period::Year, day),
        }
    }

    fn for_period(&self, period: Period) -> PeriodDay
        ensures { PeriodOn (months_in period) self.now.day.month self.now.day.left result }
    {
        match period {
            Period::Month => self.month,
            Period::Quarter => self.quarter,
            Period::Year => self.year,
        }
    }

    // A class on the day, where `second_year` tells whether Y02 is tradable.
    pub(crate) fn class(&self, second_year: bool, class: u32) -> ClassTerms
        requires { class < 11 }
        ensures { result ≡ class_by self.now.day.month self.now.day.left second_year class }
    {
        let class_row = row(class);
        let here = self.for_period(class_row.period);
        class_with(self.day, &class_row, here, second_year, class)
    }
}

// A class with its row, where `here` is what the day is to the classes of its length.
fn class_with(
    day: DayInMonth,
    class_row: &ClassRow,
    here: PeriodDay,
    second_year: bool,
    class: u32,
) -> ClassTerms
    requires class { class < 11 }
    requires period { months_in class_row.now.period ≡ length_of class }
    requires place { class_row.now.place ≡ place_of class }
    requires earlier { class_row.now.earlier ≡ earlier class }
    requires here { PeriodOn (length_of class) day.month day.left here }
    ensures { result ≡ class_by day.month day.left second_year class }
{
    let count = class_row.period.months();
    ClassTerms {
        months: Months {
            first: count * (here.own + class_row.place - 1),
            count,
        },
        tradable: if class == Y02 {
            second_year
        } else {
            class < D01
        },
        interval_class: if class == M01 && day.left <= 1 {
            D01
        } else {
            class
        },
        parts: parts(class, here.turning),
        successor: if here.turning {
            class_row.earlier
        } else {
            Some(class)
        },
    }
}

// One class on a day: what the day is to the classes of its length alone is worked out.
pub(crate) fn class_at(day: DayInMonth, second_year: bool, class: u32) -> ClassTerms
    requires { class < 11 }
    ensures { result ≡ class_by day.month day.left second_year class }
{
    let class_row = row(class);
    let here = period_day(class_row.period, day);
    class_with(day, &class_row, here, second_year, class)
}
