#![tactic(auto)]
// Why a line is refused, in words: the layer, the number and the question that was answered no.
mod question;

pub use question::Refusal;
