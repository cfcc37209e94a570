// Sums over all accounts of a book.
ghost use Rattle.std.specs.Prelude.{◌≡◌, ℕ, ◌^◌, ◌<◌, ◌≤◌, length, unsigned_abs};
ghost use Rattle.amounts.specs.SumsOfWhole.{sum_z};
ghost use Rattle.book.specs.Books.{book_of, meaning_of};
ghost use Rattle.journal.specs.Sums.{all_lots, all_cash, unknown_class};
ghost use Rattle.ledger.specs.Words.{reply, at};

use book::Book;
use ledger::Fault;
use std::array;
use terms::Terms;

// The sum of at most 1,200 numbers.
pub(crate) fn total(parts: &[i128]) -> i128
    requires { (length parts.now ≤ 1200) × ((i : ℕ) → i < length parts.now → unsigned_abs (at parts.now i) ≤ 2 ^ 112) }
    ensures { result ≡ sum_z (length parts.now) (at parts.now) }
{
    let mut sum = 0;
    for part in parts {
        sum += *part;
    }
    sum
}

// An account's lots in a class; 0 where the book has not both.
pub(crate) fn lots_in<T: Terms>(book: &Book<T>, account: u32, class: u32) -> i64
    ensures is { account < (book_of book.now).made.accounts → class < (meaning_of book.now).classes → result ≡ ((book_of book.now).rows account).lots class }
    ensures bound { unsigned_abs result ≤ 2 ^ 31 }
{
    match book.holding(account, class) {
        Ok(lots) => i64::from(lots),
        Err(_) => 0,
    }
}

// An account's cash; 0 where the book does not have it.
pub(crate) fn cash_of<T: Terms>(book: &Book<T>, account: u32) -> i128
    ensures is { account < (book_of book.now).made.accounts → result ≡ ((book_of book.now).rows account).cash }
    ensures bound { unsigned_abs result ≤ 2 ^ 63 }
{
    match book.cash(account) {
        Ok(cash) => i128::from(cash),
        Err(_) => 0,
    }
}

// The lots of all accounts in a class.
fn lots_total<T: Terms>(book: &Book<T>, class: u32) -> i128
    requires { class < (meaning_of book.now).classes }
    ensures { result ≡ all_lots book.now class }
{
    let lots: [i128; 32] = array::from_fn(|account| i128::from(lots_in(
        book,
        account as u32,
        class,
    )));
    total(&lots[..book.accounts() as usize])
}

/// The lots of all accounts in a class of the terms.
pub fn lots_sum<T: Terms>(book: &Book<T>, class: u32) -> Result<i128, Fault>
    ensures { result ≡ reply (unknown_class book.now class) (all_lots book.now class) }
{
    if class >= book.terms().classes() {
        return Err(Fault::UnknownClass);
    }
    Ok(lots_total(book, class))
}

/// The cash of all accounts.
pub fn cash_sum<T: Terms>(book: &Book<T>) -> i128
    ensures { result ≡ all_cash book.now }
{
    let cash: [i128; 32] = array::from_fn(|account| cash_of(book, account as u32));
    total(&cash[..book.accounts() as usize])
}
