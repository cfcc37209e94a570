#![tactic(auto)]
// Arithmetic of margins and payments, in whole cents.
mod holding;
mod margins;
mod payments;
mod step;

pub use holding::Holding;
pub use margins::total_margin;
pub use step::Step;
