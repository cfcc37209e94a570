// The built-in closed days.
ghost use Rattle.std.specs.Prelude.{◌≡◌, IfOk};
ghost use Rattle.holidays.specs.Builtin.{days_in2008, builtin_days, EachHasADay};

use dates::{Date, day_of};
use std::alloc::{AllocError, Global};

// The month and the day of the month of each closed day of 2008.
const CLOSED: [(u32, u32); 10] = [
    (1, 1),
    (3, 21), // Good Friday
    (3, 24), // Easter Monday
    (4, 25),
    (5, 1),
    (6, 2),
    (8, 15),
    (12, 8),
    (12, 25),
    (12, 26),
];

// The days of those of `closed` that are dates of 2008, in their order.
fn days_in_2008(heap: Global, closed: &[(u32, u32)]) -> Result<Vec<u32>, AllocError>
    ensures { IfOk result (λ v. v.items ≡ days_in2008 closed.now) }
{
    let year = 2008;
    closed
        .iter()
        .filter_map(|&(month, day)| day_of(Date { year, month, day }))
        .collect(heap)
}

// The closed days of 2008.
pub fn builtin_days(heap: Global) -> Result<Vec<u32>, AllocError>
    ensures days { IfOk result (λ v. v.items ≡ builtin_days) }
    ensures law { EachHasADay }
{
    days_in_2008(heap, &CLOSED)
}
