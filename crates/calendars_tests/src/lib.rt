#![tactic(auto)]
// Examples for dates, calendars and finding by code number.
#[cfg(test)]
mod tests;
