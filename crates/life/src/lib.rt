#![tactic(auto)]
// A position's whole life: a sheet's calls over years, told in sentences, with days that are advanced over.
mod day_calls;
mod life;
mod path;
mod told;

pub use life::{Life, Teller};
