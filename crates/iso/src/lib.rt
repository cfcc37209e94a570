#![tactic(auto)]
// Days and months as programs read them: 2008-03-26 and 2008-03.
mod written;

pub use written::{IsoDay, IsoMonth};
