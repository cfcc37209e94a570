// The figures of the law of the ledger, of a book and a reading of its history.
ghost use Rattle.std.specs.Prelude.{◌≡◌, ◌^◌, ◌<◌, ◌≤◌, pos, ◌-ℤ◌, ◌*ℤ◌, unsigned_abs};
ghost use Rattle.amounts.specs.SumsOfWhole.{sum_z};
ghost use Rattle.book.specs.Books.{book_of, meaning_of};
ghost use Rattle.journal.specs.Figures.{held_in, last_in, final_in};

use crate::sums::{lots_in, total};
use book::Book;
use history::Reading;
use std::array;
use terms::Terms;

// What one lot is worth at a price.
fn lot_worth(quantity: u32, price: i32) -> i64
    requires { quantity ≤ 8940 }
    ensures is { result ≡ pos quantity *ℤ price }
    ensures bound { unsigned_abs result ≤ 2 ^ 45 }
{
    i64::from(quantity) * i64::from(price)
}

// What lots are worth at a price.
fn worth(lots: i64, quantity: u32, price: i32) -> i128
    requires { (unsigned_abs lots ≤ 2 ^ 62) × (quantity ≤ 8940) }
    ensures is { result ≡ lots *ℤ (pos quantity *ℤ price) }
    ensures bound { unsigned_abs result ≤ 2 ^ 107 }
{
    i128::from(lots) * i128::from(lot_worth(quantity, price))
}

// The lots at the last close: those now less those traded since.
fn lots_before(lots: i64, since: i64) -> i64
    requires { (unsigned_abs lots ≤ 2 ^ 31) × (unsigned_abs since ≤ 2 ^ 61) }
    ensures is { result ≡ lots -ℤ since }
    ensures bound { unsigned_abs result ≤ 2 ^ 62 }
{
    lots - since
}

// A class's part of the holdings at last prices.
fn last_in<T: Terms>(book: &Book<T>, reading: &Reading, account: u32, class: u32) -> i128
    requires { (class < 12) × (reading.now.calls ≤ 1000000000) }
    ensures is { account < (book_of book.now).made.accounts → class < (meaning_of book.now).classes → result ≡ last_in (meaning_of book.now) (book_of book.now) reading.now account class }
    ensures bound { unsigned_abs result ≤ 2 ^ 107 }
{
    let lots = lots_before(lots_in(book, account, class), reading.since[class as usize]);
    let quantity = terms::quantity_of(book.terms(), book.day(), class);
    worth(lots, quantity, book.last_price(class).unwrap_or(0))
}

// An account's holdings at last prices.
pub(crate) fn at_last<T: Terms>(book: &Book<T>, reading: &Reading, account: u32) -> i128
    requires { (reading.now.calls ≤ 1000000000) × (account < (book_of book.now).made.accounts) }
    ensures { result ≡ sum_z (meaning_of book.now).classes (last_in (meaning_of book.now) (book_of book.now) reading.now account) }
{
    let parts: [i128; 12] = array::from_fn(|class| last_in(book, reading, account, class as u32));
    total(&parts[..book.terms().classes() as usize])
}

// A month's part of the settled months at final prices.
fn final_in<T: Terms>(terms: &T, reading: &Reading, month: u32) -> i128
    requires { (month < 1200) × (reading.now.calls ≤ 1000000000) }
    ensures is { result ≡ final_in (T.meaning terms.now) reading.now month }
    ensures bound { unsigned_abs result ≤ 2 ^ 107 }
{
    let quantity = terms.month_quantity(month).unwrap_or(0);
    let price = reading.finals[month as usize].unwrap_or(0);
    worth(reading.nets[month as usize], quantity, price)
}

// The settled months at final prices.
pub(crate) fn at_final<T: Terms>(terms: &T, reading: &Reading) -> i128
    requires { reading.now.calls ≤ 1000000000 }
    ensures { result ≡ sum_z 1200 (final_in (T.meaning terms.now) reading.now) }
{
    let parts: [i128; 1200] = array::from_fn(|month| final_in(terms, reading, month as u32));
    total(&parts)
}

// An account's lots in a class, if the class has a month.
fn held_in<T: Terms>(book: &Book<T>, account: u32, month: u32, class: u32) -> i64
    ensures is { account < (book_of book.now).made.accounts → class < (meaning_of book.now).classes → result ≡ held_in (meaning_of book.now) (book_of book.now) account month class }
    ensures bound { unsigned_abs result ≤ 2 ^ 31 }
{
    match book.terms().class_on(book.day(), class) {
        Some(here) if here.months.contains(month) => lots_in(book, account, class),
        _ => 0,
    }
}

// What an account holds in a month.
pub(crate) fn held_total<T: Terms>(book: &Book<T>, account: u32, month: u32) -> i128
    requires { account < (book_of book.now).made.accounts }
    ensures { result ≡ sum_z (meaning_of book.now).classes (held_in (meaning_of book.now) (book_of book.now) account month) }
{
    let parts: [i128; 12] = array::from_fn(|class| i128::from(held_in(
        book,
        account,
        month,
        class as u32,
    )));
    total(&parts[..book.terms().classes() as usize])
}
