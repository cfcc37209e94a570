#![tactic(auto)]
// A buyer's file of closed days, and a built-in one.
mod builtin;
mod file;

pub use builtin::builtin_days;
pub use file::{ReadFault, iso_day, read_days};

#[cfg(test)]
mod tests;
