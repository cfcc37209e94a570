// What terms are.
ghost use Rattle.std.specs.Prelude.{◌≡◌, map, nat_lt};
ghost use Rattle.std.specs.List.{range_with_len};
ghost use Rattle.dates.specs.Dates.{when};
ghost use Rattle.terms.specs.Meaning.{Meaning};
ghost use Rattle.terms.specs.Laws.{Laws};

use crate::class_terms::ClassTerms;
use calendars::DaySet;
use std::array;

// The classes of a product over a calendar, under the four laws of terms. Each call answers for every number, always
// alike.
pub trait Terms {
    ghost meaning: { Self → Meaning };

    // How many classes there are; they are numbered from 0.
    fn classes(&self) -> u32
        ensures { result ≡ (meaning self.now).classes };

    // The class in which months are finally settled.
    fn settling(&self) -> u32
        ensures { result ≡ (meaning self.now).settling };

    // Whether a day is open.
    fn is_open(&self, day: u32) -> bool
        ensures { result ≡ (meaning self.now).opens day };

    // The quantity of one lot in a month.
    fn month_quantity(&self, month: u32) -> Option<u32>
        ensures { result ≡ when (nat_lt month 1200) ((meaning self.now).quantity month) };

    // A class on a day.
    fn class_on(&self, day: u32, class: u32) -> Option<ClassTerms>
        ensures { result ≡ (meaning self.now).on day class };

    /// All classes on a day, by number; none past the last, and none on a day for which terms do not answer.
    fn classes_on(&self, day: u32) -> [Option<ClassTerms>; 12]
        ensures { result ≡ map ((meaning self.now).on day) (range_with_len 0 12) }
    {
        array::from_fn(|class| self.class_on(day, class as u32))
    }

    ghost lawful: { (t : Self) → Laws (meaning t) };
}

// The open days of terms, as a set to walk over. It stands beside that of a calendar, since one `impl` for both would
// claim the sets of either for every type.
#[derive(Drop)]
pub struct TermsOpenDays<'a, T> {
    pub terms: &'a T,
}

impl<T: Terms> DaySet for TermsOpenDays<'_, T> {
    ghost has = { λ o. (T.meaning o.terms.now).opens };

    fn contains(&self, day: u32) -> bool {
        self.terms.is_open(day)
    }
}
