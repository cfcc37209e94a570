#![tactic(auto)]
// What a walkthrough tells: the closed days, the year, days, months and the class that a story buys.
mod closed;
mod longest;
mod wording;
mod year;

pub use closed::{closed_days, tell_list};
pub use longest::longest_class;
pub use wording::{day_text, months_text};
pub use year::first_month;
