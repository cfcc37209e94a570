#![tactic(auto)]
// Finding by code number: one way for every kind of coded entry.
mod class_line;
mod coded;
mod finding;

pub use class_line::ClassLine;
pub use coded::Coded;
pub use finding::find;
