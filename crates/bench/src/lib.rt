#![tactic(auto)]
// The figures of the bench's standing set-up: start month, accounts, margin interval, prices.

// The month in its year, from 0, in which the bench's stories begin: March.
pub const START_IN_YEAR: u32 = 2;

// The month in which the bench's book begins: March 2008.
pub const START_MONTH: u32 = 98;

// Two accounts, 0 and 1.
pub const ACCOUNTS: u32 = 2;

// Every class's margin interval, in hundredths of a percent.
pub const INTERVAL: u16 = 1000;

// The price of the bench's trades, in cents per MWh or ton.
pub const PRICE: i32 = 7000;

// The price of the bench's final settlements.
pub const FINAL_PRICE: i32 = 7150;
