// A book, with the list of all the calls that it was handed and their answers.
ghost use Rattle.std.specs.Prelude.{◌≤◌, length, reverse};
ghost use Rattle.book.specs.Books.{book_of, meaning_of};
ghost use Rattle.ledger.specs.Ledger.{Life};

use book::Book;
use ledger::Entry;
use terms::Terms;

/// A book, and its calls with their answers in their order: these calls reached the book, and the law of the ledger held at
/// the start and after each of them.
#[derive(Drop)]
pub struct Journal<T: Terms> {
    pub(crate) book: Book<T>,
    pub(crate) entries: Vec<Entry>,
    ghost lived: { ∥ Life (meaning_of book) (reverse entries.items) (book_of book) ∥₁ },
    ghost few: { length entries.items ≤ 1000000000 },
}
