// Margins: an account's initial margins and mark-to-market margins.
ghost use Rattle.std.specs.Prelude.{◌≡◌, ◌^◌, ◌<◌, ◌≤◌, true, Some, None, take, ◌+ℤ◌, is_some, if◌then◌else◌, nat_eq, unsigned_abs};
ghost use Rattle.amounts.specs.SumsOfWhole.{sum_z};
ghost use Rattle.book.specs.Books.{margins_answer};
ghost use Rattle.book.specs.Markets.{cents_in};
ghost use Rattle.book.specs.Stores.{meaning_in, state_in, Ready, accounts_in};
ghost use Rattle.ledger.specs.Make.{lines_fit};
ghost use Rattle.ledger.specs.Questions.{held_priced, line_interval, interval_of, margin_price, repricing_of, margin_of, margin_in, margins as margins_of, margins_refusal};
ghost use Rattle.ledger.specs.State.{class_now};
ghost use Rattle.ledger.specs.Words.{reply};

use crate::book::Book;
use crate::prices::{Price, Prices};
use crate::store::Store;
use amounts::Holding;
use coded::ClassLine;
use ledger::Fault;
use terms::Terms;

// The price for margins: the repricing, or else the last price.
fn margin_price(prices: &Prices) -> i32
    ensures { result ≡ margin_price (cents_in prices.now.repriced) (cents_in prices.now.last) }
{
    match prices.repriced {
        Some(price) => price.cents,
        None => Price::or_zero(prices.last),
    }
}

// What a repricing adds.
fn repricing_of(prices: &Prices, holding: Holding) -> i128
    ensures is { result ≡ repricing_of (cents_in prices.now.repriced) (cents_in prices.now.last) holding.quantity holding.lots }
    ensures bound { unsigned_abs result ≤ 2 ^ 100 }
{
    match prices.repriced {
        Some(price) => holding.repricing_addition(price.cents, Price::or_zero(prices.last)),
        None => 0,
    }
}

fn added(a: i128, b: i128) -> i128
    requires { (unsigned_abs a ≤ 2 ^ 100) × (unsigned_abs b ≤ 2 ^ 100) }
    ensures is { result ≡ a +ℤ b }
    ensures bound { unsigned_abs result ≤ 2 ^ 101 }
{
    a + b
}

// The margin of lots in a class: the least of the ten steps' results, and what a repricing adds.
fn margin_of(prices: &Prices, interval: u16, holding: Holding) -> i128
    ensures is { result ≡ margin_of (cents_in prices.now.repriced) (cents_in prices.now.last) interval holding.quantity holding.lots }
    ensures bound { unsigned_abs result ≤ 2 ^ 101 }
{
    let initial = holding.margin(margin_price(prices), interval);
    added(initial, repricing_of(prices, holding))
}

// The interval on the line of a class, one of so many. It is searched, as every coded entry is: the book relies on no place
// in the lines that it was given.
fn interval(lines: &[ClassLine; 12], classes: u32, class: u32) -> u16
    requires known { (classes ≤ 12) × (class < classes) }
    requires lines { lines_fit 0 classes (take classes lines.now) ≡ true }
    ensures { result ≡ line_interval (take classes lines.now) class }
{
    let lines = &lines[..classes as usize];
    match coded::find(lines, class) {
        Some(place) => lines[place].interval,
        None => 0,
    }
}

impl<T: Terms> Store<T> {
    // Whether an account's lots in a class, if it has any, have a last price.
    fn is_priced_for(&self, account: u32, class: u32) -> bool
        requires { (account < accounts_in self.now) × (class < 12) }
        ensures { result ≡ (if nat_eq (unsigned_abs (((state_in self.now).rows account).lots class)) 0 then true else is_some ((state_in self.now).market.last class)) }
    {
        self.tables.accounts[account as usize].lots(class) == 0
            || self.tables.prices[class as usize].last.is_some()
    }

    fn holds_priced(&self, account: u32) -> bool
        requires { account < accounts_in self.now }
        ensures { result ≡ held_priced (meaning_in self.now) (state_in self.now) account }
    {
        (0..self.day().classes).all(|class| self.is_priced_for(account, class))
    }

    // The interval of the class whose interval a class takes that day.
    fn interval_of(&self, class: u32) -> u16
        requires ready { Ready self.now }
        requires known { class < 12 }
        ensures { result ≡ interval_of (state_in self.now).made.lines (class_now (meaning_in self.now) (state_in self.now) class) }
    {
        let day = self.day();
        match day.table[class as usize] {
            Some(here) => interval(&self.tables.lines, day.classes, here.interval_class),
            None => 0,
        }
    }

    // An account's margin in a class.
    fn margin_in(&self, account: u32, class: u32) -> i128
        requires ready { Ready self.now }
        requires known { (account < accounts_in self.now) × (class < 12) }
        ensures is { result ≡ margin_in (meaning_in self.now) (state_in self.now) account class }
        ensures bound { unsigned_abs result ≤ 2 ^ 101 }
    {
        let holding = Holding {
            quantity: self.day().quantity_of(class),
            lots: self.tables.accounts[account as usize].lots(class),
        };
        margin_of(
            &self.tables.prices[class as usize],
            self.interval_of(class),
            holding,
        )
    }

    // The sum over all classes.
    fn margin_sum(&self, account: u32) -> i128
        requires ready { Ready self.now }
        requires known { account < accounts_in self.now }
        ensures { result ≡ sum_z (meaning_in self.now).classes (margin_in (meaning_in self.now) (state_in self.now) account) }
    {
        let mut sum = 0;
        for class in 0..self.day().classes {
            sum += self.margin_in(account, class);
        }
        sum
    }

    fn margins(&self, account: u32) -> Result<i128, Fault>
        requires { Ready self.now }
        ensures { result ≡ reply (margins_refusal (meaning_in self.now) (state_in self.now) account) (margins_of (meaning_in self.now) (state_in self.now) account) }
    {
        if !self.knows(account) {
            return Err(Fault::UnknownAccount);
        }
        if !self.holds_priced(account) {
            return Err(Fault::HeldUnpriced);
        }
        Ok(amounts::total_margin(self.margin_sum(account)))
    }
}

impl<T: Terms> Book<T> {
    /// An account's total margin in cents, never positive: every class that it holds must have a last price.
    pub fn margins(&self, account: u32) -> Result<i128, Fault>
        ensures { result ≡ margins_answer self.now account }
    {
        self.store.margins(account)
    }
}
