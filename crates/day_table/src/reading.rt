// What each column of a table says, from the classes of the day.
ghost use Rattle.std.specs.Prelude.{◌≡◌, ◌+◌, ◌<◌, ◌≤◌, map, not, ◌&&◌, ◌==◌, false, true, slice_index_or};
ghost use Rattle.calendars.specs.Walks.{next_after};
ghost use Rattle.day_table.specs.Table.{class_at, classes_of, quantities_of};
ghost use Rattle.std.specs.List.{range_with_len};
ghost use Rattle.terms.specs.Laws.{names};
ghost use Rattle.terms.specs.Meaning.{any_below, all_below, sum_below, tradable, has_some_part, successor, class_quantity, months_of};

use std::array;
use terms::{ClassTerms, Months, Terms, TermsOpenDays};

pub(crate) type Classes = [Option<ClassTerms>; 12];

fn is_tradable(class: &Option<ClassTerms>) -> bool
    ensures { result ≡ tradable class.now }
{
    match class {
        Some(class) => class.tradable,
        None => false,
    }
}

fn has_parts(class: &Option<ClassTerms>) -> bool
    ensures { result ≡ has_some_part class.now }
{
    match class {
        Some(class) => class.has_parts(),
        None => false,
    }
}

pub(crate) fn successor_at(classes: &Classes, class: u32) -> Option<u32>
    ensures { result ≡ successor (class_at classes.now class) }
{
    match classes.get(class as usize) {
        Some(Some(class)) => class.successor,
        _ => None,
    }
}

// Whether a class hands over to a class.
fn hands_over(classes: &Classes, class: u32, to: u32) -> bool
    ensures { result ≡ names (successor (class_at classes.now class)) to }
{
    successor_at(classes, class) == Some(to)
}

pub(crate) fn tradables(classes: &Classes) -> [bool; 12]
    ensures { result ≡ map (λ c. tradable (class_at classes.now c)) (range_with_len 0 12) }
{
    array::from_fn(|class| is_tradable(&classes[class]))
}

pub(crate) fn wholes(classes: &Classes) -> [bool; 12]
    ensures { result ≡ map (λ c. has_some_part (class_at classes.now c)) (range_with_len 0 12) }
{
    array::from_fn(|class| has_parts(&classes[class]))
}

fn is_whole(whole: &[bool; 12], class: u32) -> bool
    ensures { result ≡ slice_index_or whole.now class false }
{
    whole.get(class as usize).copied().unwrap_or(false)
}

// Whether one of so many classes has parts.
pub(crate) fn some_parts(whole: &[bool; 12], count: u32) -> bool
    ensures { result ≡ any_below count (λ c. slice_index_or whole.now c false) }
{
    (0..count).any(|class| is_whole(whole, class))
}

// Whether each of so many classes succeeds itself.
pub(crate) fn all_stay(classes: &Classes, count: u32) -> bool
    ensures { result ≡ all_below count (λ c. names (successor (class_at classes.now c)) c) }
{
    (0..count).all(|class| hands_over(classes, class, class))
}

fn takes_over(classes: &Classes, settling: u32, class: u32) -> bool
    ensures { result ≡ (not (class == settling) && names (successor (class_at classes.now class)) settling) }
{
    class != settling && hands_over(classes, class, settling)
}

// Whether one of so many classes, other than the settling class, succeeds to it.
pub(crate) fn taken_over(classes: &Classes, count: u32, settling: u32) -> bool
    ensures { result ≡ any_below count (λ c. not (c == settling) && names (successor (class_at classes.now c)) settling) }
{
    (0..count).any(|class| takes_over(classes, settling, class))
}

pub(crate) fn next_of<T: Terms>(terms: &T, day: u32) -> Option<u32>
    ensures { result ≡ next_after (T.meaning terms.now).opens day }
{
    calendars::next_after(&TermsOpenDays { terms }, day)
}

// The quantity of a run of months.
fn months_quantity<T: Terms>(terms: &T, months: Months) -> u32
    requires few { months.count ≤ 12 }
    requires last { months.first + months.count ≤ 1200 }
    ensures { result ≡ sum_below months.count (λ i. (T.meaning terms.now).quantity (months.first + i)) }
{
    let Months { first, count } = months;
    (first..first + count)
        .map(|month| terms.month_quantity(month).unwrap_or(0))
        .sum()
}

// The quantity of one lot in a class of a day.
pub(crate) fn quantity_at<T: Terms>(terms: &T, day: u32, classes: &Classes, class: usize) -> u32
    requires known { classes.now ≡ classes_of (T.meaning terms.now) day }
    requires class { class < 12 }
    ensures { result ≡ class_quantity (T.meaning terms.now) ((T.meaning terms.now).on day class) }
{
    match &classes[class] {
        Some(class) => months_quantity(terms, class.months),
        None => 0,
    }
}

pub(crate) fn quantities<T: Terms>(terms: &T, day: u32, classes: &Classes) -> [u32; 12]
    requires { classes.now ≡ classes_of (T.meaning terms.now) day }
    ensures { result ≡ quantities_of (T.meaning terms.now) day }
{
    array::from_fn(|class| quantity_at(terms, day, classes, class))
}

pub(crate) fn same_months(class: &Option<ClassTerms>, other: &Option<ClassTerms>) -> bool
    ensures { result ≡ true → months_of class.now ≡ months_of other.now }
{
    match class {
        Some(class) => match other {
            Some(other) => class.months == other.months,
            None => false,
        },
        None => false,
    }
}
