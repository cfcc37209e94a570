#![tactic(auto)]
// A tiny product: the next month trades, the current one settles.
//
// This crate shows how to write terms of one's own, in three steps. `specs/Single.antt` says what each class is on a day,
// and nothing of how that is found. This file has five calls of `Terms`, which answer just that, with small functions
// below them, and none of these wants a proof by hand; the sixth, for all classes of a day, comes with the trait.
// `specs/SingleLaws.antt` shows law by law that such classes keep the laws of terms over every calendar; without it there
// is no `impl` below, and no book over this product.
ghost use Rattle.std.specs.Prelude.{◌≡◌, ◌+◌, ◌<◌, ◌==◌};
ghost use Rattle.terms.specs.Chain.{moves_up};
ghost use Rattle.single_month.specs.Single.{chain, class_in, single};
ghost use Rattle.single_month.specs.SingleLaws.{single-laws};

use calendars::Calendar;
use terms::{ClassTerms, DayInMonth, Months, Terms};

// The classes: that of the month after the day's month, and that of the day's month, which settles.
const NEXT: u32 = 0;

const CURRENT: u32 = 1;

const CLASSES: u32 = 2;

// The month of a class on a day of the given month.
fn month_of_class(month: u32, class: u32) -> u32
    requires { month < 1200 }
    ensures { result ≡ month + chain.place class }
{
    if class == NEXT { month + 1 } else { month }
}

// The class in which a class's month is found on the next open day, by the open days still to come in the day's month.
fn successor(left: u32, class: u32) -> Option<u32>
    ensures { result ≡ moves_up (left == 0) (chain.earlier class) class }
{
    if left > 0 {
        Some(class)
    } else {
        (class == NEXT).then_some(CURRENT)
    }
}

// A class on a day, told by the day's month and the open days still to come in it.
fn class_in(day: DayInMonth, class: u32) -> ClassTerms
    ensures { result ≡ class_in day.month day.left class }
{
    ClassTerms {
        months: Months {
            first: month_of_class(day.month, class),
            count: 1,
        },
        tradable: class == NEXT,
        interval_class: class,
        parts: [false; 12],
        successor: successor(day.left, class),
    }
}

// The product over a calendar.
#[derive(Drop)]
pub struct SingleMonth<C> {
    pub calendar: C,
}

impl<C: Calendar> Terms for SingleMonth<C> {
    ghost meaning = { λ s. single (C.opens s.calendar) };

    ghost lawful = { λ s. single-laws _ (C.lawful s.calendar) };

    fn classes(&self) -> u32 {
        CLASSES
    }

    fn settling(&self) -> u32 {
        CURRENT
    }

    fn is_open(&self, day: u32) -> bool {
        self.calendar.is_open(day)
    }

    fn month_quantity(&self, month: u32) -> Option<u32> {
        dates::month_length(month)
    }

    fn class_on(&self, day: u32, class: u32) -> Option<ClassTerms> {
        let day = terms::answered_day(&self.calendar, CLASSES, day, class)?;
        Some(class_in(day, class))
    }
}
