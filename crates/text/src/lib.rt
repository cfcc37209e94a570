#![tactic(auto)]
// Lines and numbers read from bytes.
mod lines;
mod numbers;

pub use lines::Reader;
pub use numbers::{digits, signed};
