// The answers to a day sheet.
ghost use Rattle.std.specs.Prelude.{◌≡◌, IfOk, string_bytes};
ghost use Rattle.day_sheet.specs.DaySheet.{day_sheet_text, day_sheet_state, day_sheet_entries, DayLives};
ghost use Rattle.journal.specs.Journals.{state_of, entries_of};

use crate::bench_book;
use calendars::Weekdays;
use power::{Baseload, Power};
use products::Product;
use sheet::{Answered, answer_sheet};
use std::alloc::{AllocError, Global};

/// How much of an input is to be read: one byte more than a sheet may have, so that a longer one is known.
pub const MOST_READ: u64 = 65_537;

/// The answers to a sheet that is called on the bench's book: Baseload on the weekday calendar, two accounts, from March 2008.
/// The law of the ledger held at the start and after each of its calls.
pub fn answer(heap: Global, sheet: &[u8]) -> Result<Answered<Power<Weekdays, Baseload>>, AllocError>
    ensures text { IfOk result (λ a. string_bytes a.text ≡ day_sheet_text sheet.now) }
    ensures state { IfOk result (λ a. state_of a.journal ≡ day_sheet_state sheet.now) }
    ensures entries { IfOk result (λ a. entries_of a.journal ≡ day_sheet_entries sheet.now) }
    ensures law { IfOk result (λ a. ∥ DayLives sheet.now ∥₁) }
{
    let journal = bench_book::open(heap)?;
    answer_sheet(heap, Product::Power, journal, sheet)
}
