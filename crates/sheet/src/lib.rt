#![tactic(auto)]
// A sheet's lines, called on a book one after the other, and the lines that answer them.
mod answer;
mod cause;
mod desk;
mod opening;
mod sheet;
mod writing;

pub use answer::Answer;
pub use cause::{Cause, Layer, LineFault};
pub use desk::Desk;
pub use opening::{Head, headed};
pub use sheet::{Answered, answer_sheet};
