#![tactic(auto)]
// Durum wheat by example, over the weekday calendar.
#[cfg(test)]
mod tests;
