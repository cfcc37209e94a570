#![tactic(auto)]
// A book with the list of all its calls and answers, and the figures of the law of the ledger.
mod calls;
mod figures;
mod journal;
mod statement;
mod sums;

pub use journal::Journal;
pub use statement::Statement;
pub use sums::{cash_sum, lots_sum};
