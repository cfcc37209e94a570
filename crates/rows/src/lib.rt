#![tactic(auto)]
// A sheet's lines as requests: from a line's bytes to what it asks.
mod advance;
mod call_name;
mod column;
mod fault;
mod names;
mod request;
mod row;
mod values;

pub use advance::Advance;
pub use column::Column;
pub use fault::SheetFault;
pub use names::Names;
pub use request::Request;
pub use row::cut;
