#![tactic(auto)]
// What the terms say of one business day, read off them once a day.
mod dated;
mod reading;
mod table;

pub use dated::DatedTerms;
pub use table::DayTable;
