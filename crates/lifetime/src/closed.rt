// The buyer's file of closed days, and the calendar that it makes.
use anyhow::anyhow;
use calendars::ListCalendar;
use std::alloc::Global;
use std::fs;

// The days of the file.
pub fn closed_days(rt: &HostRuntime, path: &str) -> anyhow::Result<Vec<u32>> {
    let bytes = fs::read(rt, path).map_err(|fault| anyhow!(
        "closed days not read: {fault}: {path}"
    ))?;
    holidays::read_days(rt.alloc(), bytes.as_slice()).map_err(|fault| anyhow!(
        "closed days refused: {fault}"
    ))
}

// The calendar of the days, or the question that refuses them and the line at which they are refused; each line is one day.
pub fn calendar(heap: Global, closed: Vec<u32>) -> anyhow::Result<ListCalendar> {
    match ListCalendar::new(closed) {
        Ok(calendar) => Ok(calendar),
        Err(refused) => {
            let line = setup::refused_at(heap, refused.closed.as_slice())?;
            let number = refused.fault.number();
            let fault = refused.fault;
            Err(anyhow!("closed days refused at line {line}, question {number}: {fault}"))
        }
    }
}
