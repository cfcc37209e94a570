#![tactic(auto)]
// The book: all its calls, over any terms.
mod account;
mod accounts;
mod arithmetic;
mod book;
mod close;
mod history;
mod make;
mod margins;
mod mark;
mod prices;
mod pricing;
mod quotes;
mod reads;
mod rows;
mod settle;
mod store;
mod tables;
mod trade;

pub use book::Book;
pub use make::NotMade;
