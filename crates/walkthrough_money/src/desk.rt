// A journal, and the payment list that is lent to its calls.
use coded::ClassLine;
use journal::Journal;
use ledger::{Call, Fault, Payment};
use std::alloc::{AllocError, Global};
use std::array;
use terms::Terms;

const NO_PAYMENT: Payment = Payment {
    account: 0,
    cents: 0,
};

#[derive(Drop)]
pub struct Desk<T: Terms> {
    pub journal: Journal<T>,
    list: [Payment; 32],
}

// A line for each class, with the bench's interval.
pub fn class_lines() -> [ClassLine; 12] {
    array::from_fn(|class| ClassLine {
        class: class as u32,
        interval: bench::INTERVAL,
    })
}

impl<T: Terms> Desk<T> {
    // A new book of the bench's accounts; none where the make is refused.
    pub fn open(heap: Global, terms: T, month: u32) -> Option<Desk<T>>
    where
        T: Drop,
    {
        let lines = class_lines();
        let classes = terms.classes().min(12) as usize;
        let journal = Journal::open(heap, terms, month, bench::ACCOUNTS, &lines[..classes]).ok()?;
        Some(Desk {
            journal,
            list: [NO_PAYMENT; 32],
        })
    }

    pub fn call(&mut self, call: Call) -> Result<Result<(), Fault>, AllocError> {
        self.journal.call(call, &mut self.list)
    }

    // What the last settle or close paid account 0.
    pub fn paid(&self) -> i128 {
        self.list[0].cents
    }

    pub fn day(&self) -> u32 {
        self.journal.book().day()
    }

    pub fn terms(&self) -> &T {
        self.journal.book().terms()
    }

    pub fn last_price(&self, class: u32) -> Option<i32> {
        self.journal.book().last_price(class)
    }

    // The margin of account 0.
    pub fn margin(&self) -> i128 {
        self.journal.book().margins(0).unwrap_or(0)
    }

    // An account's cash.
    pub fn cash(&self, account: u32) -> i128 {
        self.journal.book().cash(account).map_or(0, i128::from)
    }

    // The lots of account 0 by class.
    pub fn holdings(&self) -> [i32; 12] {
        array::from_fn(|class| self.journal.book().holding(0, class as u32).unwrap_or(0))
    }
}
