// The calls that only ask: holding, cash, day; and what the book was made over and has for prices.
ghost use Rattle.std.specs.Prelude.{◌≡◌};
ghost use Rattle.book.specs.Books.{book_of, terms_of, holding_answer, cash_answer};

use crate::book::Book;
use crate::prices::Price;
use ledger::Fault;
use terms::Terms;

impl<T: Terms> Book<T> {
    /// The terms that the book was made over.
    pub fn terms(&self) -> &T
        ensures { result.now ≡ terms_of self.now }
    {
        self.store.dated.terms()
    }

    /// The last price of a class, by number, in cents; a number that is no class has none.
    pub fn last_price(&self, class: u32) -> Option<i32>
        ensures { result ≡ (book_of self.now).market.last class }
    {
        let prices = self.store.tables.prices.get(class as usize)?;
        Price::cents(prices.last)
    }

    /// The day's price of a class, by number, in cents; a number that is no class has none.
    pub fn day_price(&self, class: u32) -> Option<i32>
        ensures { result ≡ (book_of self.now).market.today class }
    {
        let prices = self.store.tables.prices.get(class as usize)?;
        Price::cents(prices.today)
    }

    /// How many accounts the book has; they are numbered from 0.
    pub fn accounts(&self) -> u32
        ensures { result ≡ (book_of self.now).made.accounts }
    {
        self.store.tables.accounts.len() as u32
    }

    /// The month in which the book began.
    pub fn month(&self) -> u32
        ensures { result ≡ (book_of self.now).made.month }
    {
        self.store.tables.month
    }

    /// The day of the book, from 0 for 1 January 2000.
    pub fn day(&self) -> u32
        ensures { result ≡ (book_of self.now).market.day }
    {
        self.store.day().day
    }

    /// An account's cash in cents.
    pub fn cash(&self, account: u32) -> Result<i64, Fault>
        ensures { result ≡ cash_answer self.now account }
    {
        if !self.store.knows(account) {
            return Err(Fault::UnknownAccount);
        }
        Ok(self.store.tables.accounts[account as usize].cash())
    }

    /// An account's lots in a class.
    pub fn holding(&self, account: u32, class: u32) -> Result<i32, Fault>
        ensures { result ≡ holding_answer self.now account class }
    {
        if !self.store.knows(account) {
            return Err(Fault::UnknownAccount);
        }
        if class >= self.store.day().classes {
            return Err(Fault::UnknownClass);
        }
        Ok(self.store.tables.accounts[account as usize].lots(class))
    }
}
