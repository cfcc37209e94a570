// The buyer's closed days, and the calendar that they make.
ghost use Rattle.std.specs.Prelude.{◌≡◌, IfOk, MatchOption};
ghost use Rattle.calendars.specs.Refusals.{Accepted, Refused};
ghost use Rattle.calendars.specs.declared.fault.ListFault.{ListFault};

use crate::year;
use calendars::ListCalendar;
use holidays::ReadFault;
use std::env::{self, Env};
use std::fs::{self, Files};
use std::io;

// The buyer's closed days: those of the file that the first argument names, or the built-in ones. None where the file is
// no list of dates, which is then said.
pub fn closed_days(rt: &(impl Print + Env + Files + AllocGlobal)) -> io::Result<Option<Vec<u32>>> {
    let heap = rt.alloc();
    let mut args = env::args(rt)?;
    let _ = args.next();
    let Some(path) = args.next() else {
        println!(rt; "The buyer brings no file, so the built-in list of closed days is taken.")?;
        return Ok(Some(holidays::builtin_days(heap)?));
    };
    let bytes = fs::read(rt, path.as_str())?;
    println!(rt; "The buyer loads his closed days from {path}.")?;
    match holidays::read_days(heap, bytes.as_slice()) {
        Ok(days) => Ok(Some(days)),
        Err(fault @ ReadFault::NotADate { .. }) => {
            println!(rt; "It is refused: {fault}.")?;
            Ok(None)
        }
        Err(fault @ ReadFault::NoMemory) => {
            let reason = format!(in heap; "{fault}")?;
            Err(io::Error::new(io::ErrorKind::OutOfMemory, reason.as_str()))
        }
    }
}

// Says whether the closed days make a calendar, and what it does to the year that begins in `january`, which is given by
// the month's number. None where they make none.
pub fn tell_list(
    rt: &(impl Print + AllocGlobal),
    closed: Vec<u32>,
    january: u32,
) -> io::Result<Option<ListCalendar>>
    ensures { IfOk result (λ o. MatchOption o ((f : ListFault) × Refused closed.items f) (λ c. (c.closed ≡ closed) × Accepted closed.items)) }
{
    let count = closed.len();
    match ListCalendar::new(closed) {
        Ok(calendar) => {
            println!(rt; "The list of {count} closed days is accepted.")?;
            year::tell(rt, &calendar, january)?;
            Ok(Some(calendar))
        }
        Err(refused) => {
            let number = refused.fault.number();
            let reason = refused.fault;
            println!(rt;
                "The list of {count} closed days is refused by question {number}: {reason}."
            )?;
            Ok(None)
        }
    }
}
