// The quantity of a class: that of its months together.
ghost use Rattle.std.specs.Prelude.{◌≡◌, ◌≤◌};
ghost use Rattle.terms.specs.Meaning.{class_quantity};
ghost use Rattle.terms.specs.Quantities.{PartsAndSuccessors};

use crate::class_terms::Months;
use crate::terms::Terms;

// The quantity of one lot in a class on a day; 0 where terms do not answer. For all terms, a class with parts has as
// much as its parts together, and a successor as much as the class that it succeeds.
pub fn quantity_of<T: Terms>(terms: &T, day: u32, class: u32) -> u32
    ensures is { result ≡ class_quantity (T.meaning terms.now) ((T.meaning terms.now).on day class) }
    ensures bound { result ≤ 8940 }
    ensures law { PartsAndSuccessors (T.meaning terms.now) }
{
    let Some(class) = terms.class_on(day, class) else {
        return 0;
    };
    let Months { first, count } = class.months;
    (first..first + count)
        .map(|month| terms.month_quantity(month).unwrap_or(0))
        .sum()
}
