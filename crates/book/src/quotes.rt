// What a close multiplies with, worked out once for all accounts.
ghost use Rattle.std.specs.Prelude.{◌≡◌, ℕ, ◌<◌, ◌≤◌, unsigned_abs};
ghost use Rattle.book.specs.Markets.{cents_in, market_of};
ghost use Rattle.book.specs.Quotes.{quote_at, quote_on, SmallQuote, SmallQuotes};
ghost use Rattle.book.specs.Rows.{SmallDay, SmallCents};
ghost use Rattle.day_table.specs.Table.{day_in};
ghost use Rattle.ledger.specs.Calls.{newest};
ghost use Rattle.ledger.specs.Words.{at, or_zero};

use crate::prices::{Price, Prices};
use day_table::DayTable;
use std::array;

/// A class for its variation margin: the quantity of one lot, 0 where the class is not tradable, and the day's and the last
/// price in cents, a missing one as 0.
#[derive(Clone, Copy)]
pub(crate) struct Quote {
    pub(crate) quantity: u32,
    pub(crate) today: i32,
    pub(crate) last: i32,
}

// The market's day and its count of trades make no difference: any will do.
fn class_quote(day: &DayTable, prices: &[Prices; 12], class: usize) -> Quote
    requires { (class < 12) × (SmallDay day.now) }
    ensures is { result ≡ quote_on (day_in day.now) (market_of 0 0 prices.now) class }
    ensures small { SmallQuote result }
{
    let quantity = if day.tradable[class] {
        day.quantity[class]
    } else {
        0
    };
    Quote {
        quantity,
        today: Price::or_zero(prices[class].today),
        last: Price::or_zero(prices[class].last),
    }
}

/// All classes of a day, by number.
pub(crate) fn all_quotes(day: &DayTable, prices: &[Prices; 12]) -> [Quote; 12]
    requires { SmallDay day.now }
    ensures is { (d n c : ℕ) → c < 12 → quote_at result c ≡ quote_on (day_in day.now) (market_of d n prices.now) c }
    ensures small { SmallQuotes result }
{
    array::from_fn(|class| class_quote(day, prices, class))
}

/// The price of a class once the day's prices have become the last ones.
pub(crate) fn newest(day: &DayTable, prices: &[Prices; 12], class: usize) -> Option<Price>
    requires { class < 12 }
    ensures { (d n : ℕ) → cents_in result ≡ newest (day_in day.now) (market_of d n prices.now) class }
{
    if day.tradable[class] {
        prices[class].today
    } else {
        prices[class].last
    }
}

// The market's day and its count of trades make no difference: any will do.
fn newest_in_cents(day: &DayTable, prices: &[Prices; 12], class: usize) -> i32
    requires { class < 12 }
    ensures is { result ≡ or_zero (newest (day_in day.now) (market_of 0 0 prices.now) class) }
    ensures small { unsigned_abs result ≤ 100000 }
{
    Price::or_zero(newest(day, prices, class))
}

/// The same of all classes, in cents, a missing one as 0.
pub(crate) fn newest_cents(day: &DayTable, prices: &[Prices; 12]) -> [i32; 12]
    ensures is { (d n c : ℕ) → c < 12 → at result c ≡ or_zero (newest (day_in day.now) (market_of d n prices.now) c) }
    ensures small { SmallCents result }
{
    array::from_fn(|class| newest_in_cents(day, prices, class))
}
