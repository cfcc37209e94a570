// A file of closed days: each line is one date, as 2008-03-26.
ghost use Rattle.std.specs.Prelude.{◌≡◌, Ok, Some, MatchResult};
ghost use Rattle.std.specs.Option.{ok_or};
ghost use Rattle.holidays.specs.declared.file.ReadFault.TheVariants.{NotADate, NoMemory};
ghost use Rattle.holidays.specs.File.{iso_day, days_read, fault_text, Refuses};

use dates::{Date, day_of};
use std::alloc::{AllocError, AllocFailed, Global};
use std::fmt;
use text::{Reader, digits};

#[derive(Clone, Copy, PartialEq, Eq, Debug)]
pub enum ReadFault {
    // The line with this number, counted from 1, is no date.
    NotADate { line: usize },
    NoMemory,
}

impl From<AllocError> for ReadFault {
    ghost from_gives = { λ _ r. r ≡ NoMemory };

    fn from(_e: AllocError) -> ReadFault {
        ReadFault::NoMemory
    }
}

impl<T: Drop> From<AllocFailed<T>> for ReadFault {
    ghost from_gives = { λ _ r. r ≡ NoMemory };

    fn from(_e: AllocFailed<T>) -> ReadFault {
        ReadFault::NoMemory
    }
}

impl fmt::Display for ReadFault {
    ghost output = { λ f. Some (fault_text f) };

    fn fmt<W: fmt::Write>(&self, f: &mut fmt::Formatter<W>) -> fmt::Result {
        match self {
            ReadFault::NotADate { line } => write!(
                f,
                "line {line} is no date of the form YYYY-MM-DD from 2000 to 2099"
            ),
            ReadFault::NoMemory => f.write_str("no memory for the closed days"),
        }
    }
}

// The day of a line YYYY-MM-DD, if it is a date from 2000 to 2099.
pub fn iso_day(line: &[u8]) -> Option<u32>
    ensures { result ≡ iso_day line.now }
{
    if line.len() != 10 || line[4] != b'-' || line[7] != b'-' {
        return None;
    }
    let year = digits(&line[..4])?;
    let month = digits(&line[5..7])?;
    let day = digits(&line[8..])?;
    day_of(Date { year, month, day })
}

// The day of the line with the given number, or the refusal of that line.
fn line_day(line: &[u8], number: usize) -> Result<u32, ReadFault>
    ensures { result ≡ ok_or (iso_day line.now) (NotADate number) }
{
    iso_day(line).ok_or(ReadFault::NotADate { line: number })
}

// The day of each line, in the order of the file.
pub fn read_days(heap: Global, text: &[u8]) -> Result<Vec<u32>, ReadFault>
    ensures { MatchResult result (λ v. days_read text.now ≡ Ok v.items) (Refuses text.now) }
{
    let mut days = Vec::new(heap);
    let mut reader = Reader::new(text);
    while let Some(line) = reader.next_line() {
        let day = line_day(line, reader.line())?;
        days.push(day)?;
    }
    Ok(days)
}
