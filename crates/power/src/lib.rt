#![tactic(auto)]
// Power terms: months, quarters and years of Baseload and Peakload over any calendar.
mod class;
mod classes;
mod hours;
mod power;

pub use classes::class_name;
pub use hours::{Baseload, Peakload, Profile};
pub use power::Power;
