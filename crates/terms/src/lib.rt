#![tactic(auto)]
// Terms: which classes there are on a day, and the laws that every product keeps.
mod answering;
mod class_row;
mod class_terms;
mod handover;
mod quantity;
mod terms;

pub use answering::{DayInMonth, END, answered_day, answers_for};
pub use class_row::{ClassRow, Period, class_name};
pub use class_terms::{ClassTerms, Months};
pub use handover::heir;
pub use quantity::quantity_of;
pub use terms::{Terms, TermsOpenDays};
