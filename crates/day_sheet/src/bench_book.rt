// The bench's book.
ghost use Rattle.std.specs.Prelude.{◌≡◌, [], IfOk};
ghost use Rattle.day_sheet.specs.DaySheet.{bench_state, bench_lines, bench_line};
ghost use Rattle.journal.specs.Journals.{state_of, entries_of};

use calendars::Weekdays;
use coded::ClassLine;
use journal::Journal;
use power::{Baseload, Power};
use std::alloc::{AllocError, Global};
use std::array;

// A class's line.
fn line(class: u32) -> ClassLine
    ensures { result ≡ bench_line class }
{
    ClassLine {
        class,
        interval: bench::INTERVAL,
    }
}

// A line for each class of power.
fn lines() -> [ClassLine; 11]
    ensures { result ≡ bench_lines }
{
    array::from_fn(|class| line(class as u32))
}

// The bench's book, with no call yet.
pub(crate) fn open(heap: Global) -> Result<Journal<Power<Weekdays, Baseload>>, AllocError>
    ensures state { IfOk result (λ j. state_of j ≡ bench_state) }
    ensures entries { IfOk result (λ j. entries_of j ≡ []) }
{
    let terms = Power {
        calendar: Weekdays,
        profile: Baseload,
    };
    let lines = lines();
    // It can be made; the check is not asked to see it.
    Journal::open(heap, terms, bench::START_MONTH, bench::ACCOUNTS, &lines).map_err(|_| AllocError)
}
