#![tactic(auto)]
// What a life is set up with: the product, the start month, the accounts, the intervals, the account followed; and where a list of
// closed days is refused.
mod closed;
mod fault;
mod intervals;
mod setup;
mod traded;

pub use closed::refused_at;
pub use fault::ArgumentFault;
pub use intervals::class_lines;
pub use setup::Setup;
pub use traded::Traded;
