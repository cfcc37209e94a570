// Durum wheat as terms.
ghost use Rattle.std.specs.Prelude.{◌≡◌, ◌<◌, ◌≤◌, ◌==◌, ◌&&◌, is_some, IfSome, nat_lt};
ghost use Rattle.dates.specs.Dates.{when};
ghost use Rattle.terms.specs.Listing.{answers_for};
ghost use Rattle.wheat.specs.Wheat.{last_day, front_expiry, is_near, class_of_interval, class_from, wheat};
ghost use Rattle.wheat.specs.WheatLaws.{wheat-laws};

use crate::classes::{CLASSES, DEL, T01, row};
use crate::expiries::{expiry_month, front_expiry};
use calendars::Calendar;
use dates::MONTH_COUNT;
use std::array;
use terms::{ClassTerms, Months, Terms};

// The tons of one lot in a month.
const TONS: u32 = 50;

// T01 takes the interval of DEL while no more open days than these remain to its last trading day.
const NEAR: u32 = 6;

// Whether so few open days remain after a day, to T01's last trading day and with it. It looks no further than the first
// open day beyond so many.
fn is_near<C: Calendar>(calendar: &C, day: u32, last: u32) -> bool
    requires { (day < 36525) × (last ≤ 36525) }
    ensures { result ≡ is_near (C.opens calendar.now) day last }
{
    let mut found = 0;
    for later in day + 1..last + 1 {
        found += u32::from(calendar.is_open(later));
        if found > NEAR {
            return false;
        }
    }
    true
}

// Whether a class is T01 with its last trading day near. No days are counted for another class, which takes its own interval.
fn is_near_for<C: Calendar>(calendar: &C, day: u32, last: u32, class: u32) -> bool
    requires { (day < 36525) × (last ≤ 36525) }
    ensures { result ≡ (class == 0 && is_near (C.opens calendar.now) day last) }
{
    class == T01 && is_near(calendar, day, last)
}

// What a day is to a class: T01's expiry, whether the class is T01 with its last trading day near, and whether the day is that.
// What it is to T01 serves all classes, since T01 alone reads `near`.
#[derive(Clone, Copy)]
struct FrontDay {
    front: u32,
    near: bool,
    lasts: bool,
    ghost in_range: { (0 < front) × (front < 396) },
}

// The day, if wheat answers for the class on it.
fn answered_day<C: Calendar>(calendar: &C, day: u32, class: u32) -> Option<FrontDay>
    ensures answers { is_some result ≡ answers_for (C.opens calendar.now) 6 day class }
    ensures front { IfSome result (λ d. d.front ≡ front_expiry (C.opens calendar.now) day) }
    ensures near { IfSome result (λ d. d.near ≡ (class == 0 && is_near (C.opens calendar.now) day (last_day (C.opens calendar.now) d.front))) }
    ensures lasts { IfSome result (λ d. d.lasts ≡ (last_day (C.opens calendar.now) d.front == day)) }
{
    if !terms::answers_for(calendar, CLASSES, day, class) {
        return None;
    }
    let front = front_expiry(calendar, day)?;
    Some(FrontDay {
        front: front.number,
        near: is_near_for(calendar, day, front.last, class),
        lasts: front.last == day,
    })
}

// The class whose margin interval a class takes.
fn interval_class(near: bool, class: u32) -> u32
    ensures { result ≡ class_of_interval near class }
{
    if class == T01 && near { DEL } else { class }
}

// A class on such a day.
fn class_from(day: FrontDay, class: u32) -> ClassTerms
    requires { class < 6 }
    ensures { result ≡ class_from day.front day.near day.lasts class }
{
    let class_row = row(class);
    ClassTerms {
        months: Months {
            first: expiry_month(day.front + class_row.place - 1),
            count: class_row.period.months(),
        },
        tradable: class != DEL,
        interval_class: interval_class(day.near, class),
        parts: [false; 12],
        successor: if day.lasts {
            class_row.earlier
        } else {
            Some(class)
        },
    }
}

// The same for every number: none past the last class.
fn class_in(day: FrontDay, class: u32) -> Option<ClassTerms>
    ensures { result ≡ when (nat_lt class 6) (class_from day.front day.near day.lasts class) }
{
    if class < CLASSES {
        Some(class_from(day, class))
    } else {
        None
    }
}

// Durum wheat over a calendar.
#[derive(Drop)]
pub struct Wheat<C> {
    pub calendar: C,
}

impl<C: Calendar> Terms for Wheat<C> {
    ghost meaning = { λ w. wheat (C.opens w.calendar) };

    ghost lawful = { λ w. wheat-laws _ (C.lawful w.calendar) };

    fn classes(&self) -> u32 {
        CLASSES
    }

    fn settling(&self) -> u32 {
        DEL
    }

    fn is_open(&self, day: u32) -> bool {
        self.calendar.is_open(day)
    }

    fn month_quantity(&self, month: u32) -> Option<u32> {
        (month < MONTH_COUNT).then_some(TONS)
    }

    fn class_on(&self, day: u32, class: u32) -> Option<ClassTerms> {
        class_in(answered_day(&self.calendar, day, class)?, class)
    }

    fn classes_on(&self, day: u32) -> [Option<ClassTerms>; 12] {
        let Some(here) = answered_day(&self.calendar, day, T01) else {
            return [None; 12];
        };
        array::from_fn(|class| class_in(here, class as u32))
    }
}
