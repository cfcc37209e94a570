#![tactic(auto)]
// The law of the ledger, told of a book and the list of its calls: both sides of each of its equations; and the calls, handed
// over once more.
mod account;
mod again;
mod sums;

pub use account::tell_account;
pub use again::differing_answers;
pub use sums::tell_sums;
