#![tactic(auto)]
// The bench's figures, and the law of the ledger for power and wheat.
mod stands;

pub use stands::{all_products_stand, figures_stand};
