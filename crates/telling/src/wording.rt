// Days and months in words.
ghost use Rattle.std.specs.Prelude.{◌≡◌, IfOk, string_bytes};
ghost use Rattle.telling.specs.Wording.{day_text, optional_day_text, month_text, months_text};

use std::alloc::{AllocError, Global};
use terms::Months;

// A day, as in Wednesday 26 March 2008.
pub fn day_text(heap: Global, day: u32) -> Result<String, AllocError>
    ensures { IfOk result (λ s. string_bytes s ≡ day_text day) }
{
    let weekday = dates::weekday_of(day);
    match dates::date_of(day) {
        Some(date) => format!(in heap; "{weekday} {date}"),
        None => format!(in heap; "day {day}"),
    }
}

// The same where a day is given.
pub(crate) fn optional_day_text(heap: Global, day: Option<u32>) -> Result<String, AllocError>
    ensures { IfOk result (λ s. string_bytes s ≡ optional_day_text day) }
{
    match day {
        Some(day) => day_text(heap, day),
        None => format!(in heap; "none"),
    }
}

// A month, as in March 2008.
pub(crate) fn month_text(heap: Global, month: u32) -> Result<String, AllocError>
    ensures { IfOk result (λ s. string_bytes s ≡ month_text month) }
{
    let name = dates::month_name(month % 12 + 1);
    let year = month / 12;
    if year > 99 {
        return format!(in heap; "month {month}");
    }
    let year = 2000 + year;
    format!(in heap; "{name} {year}")
}

// One month, or the first and the last of several.
pub fn months_text(heap: Global, months: Months) -> Result<String, AllocError>
    ensures { IfOk result (λ s. string_bytes s ≡ months_text months.first months.count) }
{
    let Months { first, count } = months;
    let from = month_text(heap, first)?;
    if count <= 1 {
        return Ok(from);
    }
    let to = month_text(heap, first.saturating_add(count - 1))?;
    format!(in heap; "{from} to {to}")
}
