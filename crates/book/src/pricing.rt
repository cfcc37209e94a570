// Writing into the price table.
ghost use Rattle.std.specs.Prelude.{◌≡◌, ℕ, ◌<◌, Some, None};
ghost use Rattle.book.specs.Markets.{market_of};
ghost use Rattle.ledger.specs.Words.{put};

use crate::prices::{Price, Prices};

/// The day's price of a class; a later one replaces an earlier one.
pub(crate) fn mark(prices: &mut [Prices; 12], class: u32, price: Price)
    requires { class < 12 }
    ensures { (d n : ℕ) → market_of d n prices.new ≡ record (market_of d n prices.old) { today = put (market_of d n prices.old).today class (Some price.cents) } }
{
    let here = prices[class as usize];
    prices[class as usize] = here.marked(price);
}

/// A new price of a class, for margins only.
pub(crate) fn reprice(prices: &mut [Prices; 12], class: u32, price: Price)
    requires { class < 12 }
    ensures { (d n : ℕ) → market_of d n prices.new ≡ record (market_of d n prices.old) { repriced = put (market_of d n prices.old).repriced class (Some price.cents) } }
{
    let here = prices[class as usize];
    prices[class as usize] = here.repriced(price);
}

/// A class that was finally settled has neither a last price nor a repricing.
pub(crate) fn settle(prices: &mut [Prices; 12], class: u32)
    requires { class < 12 }
    ensures { (d n : ℕ) → market_of d n prices.new ≡ record (market_of d n prices.old) { last = put (market_of d n prices.old).last class None; repriced = put (market_of d n prices.old).repriced class None } }
{
    let here = prices[class as usize];
    prices[class as usize] = here.settled();
}
