#![tactic(auto)]
// The day sheet: a sheet that is called on the bench's book.
mod bench_book;
mod day;

pub use day::{MOST_READ, answer};
