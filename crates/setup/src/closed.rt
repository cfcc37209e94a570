// Where a list of closed days is refused.
ghost use Rattle.std.specs.Prelude.{◌≡◌, ◌≤◌, length, take, IfOk, MatchBool};
ghost use Rattle.calendars.specs.Refusals.{Accepted, Refused};
ghost use Rattle.calendars.specs.declared.fault.ListFault.{ListFault};
ghost use Rattle.setup.specs.Closed.{RefusedAt};

use calendars::ListCalendar;
use std::alloc::{AllocError, Global};

// So many days of a list, the first ones.
fn first_days(heap: Global, closed: &[u32], days: usize) -> Result<Vec<u32>, AllocError>
    requires { days ≤ length closed.now }
    ensures { IfOk result (λ v. v.items ≡ take days closed.now) }
{
    closed[..days].to_vec(heap)
}

// Whether so many days of a list, the first ones, make no calendar.
fn is_refused(heap: Global, closed: &[u32], days: usize) -> Result<bool, AllocError>
    requires { days ≤ length closed.now }
    ensures { IfOk result (λ refused. MatchBool refused ((f : ListFault) × Refused (take days closed.now) f) (Accepted (take days closed.now))) }
{
    match ListCalendar::new(first_days(heap, closed, days)?) {
        Ok(_) => Ok(false),
        Err(_) => Ok(true),
    }
}

// The least number of days of a refused list, from its head, that make no calendar: in a file of one day on each line, the line
// at which the file is refused.
pub fn refused_at(heap: Global, closed: &[u32]) -> Result<usize, AllocError>
    ensures { IfOk result (λ days. RefusedAt closed.now days) }
{
    for days in 1..closed.len() {
        if is_refused(heap, closed, days)? {
            return Ok(days);
        }
    }
    Ok(closed.len())
}
