#![tactic(auto)]
// The definitions of the calls of a book, and the law of the ledger on them.
mod call;
mod entry;
mod fault;
mod law;
mod payment;

pub use call::Call;
pub use entry::Entry;
pub use fault::Fault;
pub use law::ledger_stands;
pub use payment::Payment;
