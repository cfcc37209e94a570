// Mark and reprice: the prices that a caller sets.
ghost use Rattle.std.specs.Prelude.{◌≡◌, ◌<◌, ◌≤◌, true, not, ◌&&◌, is_some, nat_lt, Ok};
ghost use Rattle.book.specs.Books.{book_of, terms_of, left, GoesOn, answer};
ghost use Rattle.book.specs.Stores.{meaning_in, state_in, terms_in, day_in_store, refused_in, left_in};
ghost use Rattle.ledger.specs.Calls.{after};
ghost use Rattle.ledger.specs.Words.{reply};
ghost use Rattle.ledger.specs.declared.call.Call.TheVariants.{Mark, Reprice};

use crate::book::Book;
use crate::prices::Price;
use crate::pricing::{mark, reprice};
use crate::store::Store;
use ledger::Fault;
use terms::Terms;

impl<T: Terms> Store<T> {
    pub(crate) fn is_tradable(&self, class: u32) -> bool
        ensures is { result ≡ (day_in_store self.now).tradable class }
        ensures known { result ≡ true → class < 12 }
    {
        self.day().is_tradable(class)
    }

    fn mark(&mut self, class: u32, price: i32) -> Result<(), Fault>
        ensures answer { result ≡ reply (refused_in self.old (Mark class price)) tt }
        ensures after { state_in self.new ≡ left_in self.old (Mark class price) }
        ensures terms { terms_in self.new ≡ terms_in self.old }
    {
        if !self.is_tradable(class) {
            return Err(Fault::NotTradable);
        }
        let Some(price) = Price::new(price) else {
            return Err(Fault::PriceOutOfRange);
        };
        mark(&mut self.tables.prices, class, price);
        Ok(())
    }

    // Whether a class is a delivery class with a last price.
    fn is_repriceable(&self, class: u32) -> bool
        ensures is { result ≡ (nat_lt class (meaning_in self.now).classes && (not ((day_in_store self.now).tradable class) && is_some ((state_in self.now).market.last class))) }
        ensures known { result ≡ true → class < 12 }
    {
        class < self.day().classes
            && !self.is_tradable(class)
            && self.tables.prices[class as usize].last.is_some()
    }

    fn reprice(&mut self, class: u32, price: i32) -> Result<(), Fault>
        ensures answer { result ≡ reply (refused_in self.old (Reprice class price)) tt }
        ensures after { state_in self.new ≡ left_in self.old (Reprice class price) }
        ensures terms { terms_in self.new ≡ terms_in self.old }
    {
        if !self.is_repriceable(class) {
            return Err(Fault::NotRepriceable);
        }
        let Some(repriced) = Price::new(price) else {
            return Err(Fault::PriceOutOfRange);
        };
        reprice(&mut self.tables.prices, class, repriced);
        Ok(())
    }
}

impl<T: Terms> Book<T> {
    /// The day's price of a tradable class, in cents; a later mark replaces an earlier one.
    pub fn mark(&mut self, class: u32, price: i32) -> Result<(), Fault>
        ensures answer { result ≡ answer self.old (Mark class price) }
        ensures after { book_of self.new ≡ left self.old (Mark class price) }
        ensures terms { terms_of self.new ≡ terms_of self.old }
        ensures life { GoesOn self.old (Mark class price) self.new }
    {
        self.store.mark(class, price)
    }

    /// A new price of a delivery class in cents, for margins only.
    pub fn reprice(&mut self, class: u32, price: i32) -> Result<(), Fault>
        ensures answer { result ≡ answer self.old (Reprice class price) }
        ensures after { book_of self.new ≡ left self.old (Reprice class price) }
        ensures terms { terms_of self.new ≡ terms_of self.old }
        ensures life { GoesOn self.old (Reprice class price) self.new }
    {
        self.store.reprice(class, price)
    }
}
