#![tactic(auto)]
// What a history tells of an account, as the law of the ledger reads it.
mod read;
mod reading;
mod steps;

pub use read::{MOST_CALLS, read_account};
pub use reading::Reading;
