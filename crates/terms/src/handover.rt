// Where a month goes when the day is closed.
ghost use Rattle.std.specs.Prelude.{◌≡◌, ◌&&◌, Some};
ghost use Rattle.calendars.specs.Walks.{first_from};
ghost use Rattle.terms.specs.Heirs.{heir_of, MonthsFollow};
ghost use Rattle.terms.specs.Meaning.{has, is_part, successor};

use crate::class_terms::ClassTerms;
use crate::terms::Terms;

fn has_month<T: Terms>(terms: &T, day: u32, class: u32, month: u32) -> bool
    ensures { result ≡ has ((T.meaning terms.now).on day class) month }
{
    terms
        .class_on(day, class)
        .is_some_and(|class| class.months.contains(month))
}

fn successor_of<T: Terms>(terms: &T, day: u32, class: u32) -> Option<u32>
    ensures { result ≡ successor ((T.meaning terms.now).on day class) }
{
    terms.class_on(day, class).and_then(|class| class.successor)
}

// The part of a class that has a month.
fn part_with<T: Terms>(terms: &T, day: u32, class: &ClassTerms, month: u32) -> Option<u32>
    ensures { result ≡ first_from (λ p. is_part (Some class.now) p && has ((T.meaning terms.now).on day p) month) 0 12 }
{
    (0..12).find(|part| class.is_part(*part) && has_month(terms, day, *part, month))
}

// The class to which a class hands a month over at the day's close: its successor, or, where it has parts, that of the
// part with the month. It is asked of a month that the class has.
pub fn heir<T: Terms>(terms: &T, day: u32, class: u32, month: u32) -> Option<u32>
    ensures is { result ≡ heir_of (T.meaning terms.now) day class month }
    ensures law { MonthsFollow (T.meaning terms.now) }
{
    let class = terms.class_on(day, class)?;
    if class.has_parts() {
        successor_of(terms, day, part_with(terms, day, &class, month)?)
    } else {
        class.successor
    }
}
