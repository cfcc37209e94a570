// A journal's make, its reads and its calls.
ghost use Rattle.std.specs.Prelude.{◌≡◌, ◌≤◌, [], length, reverse, IfOk, IfErr, MatchResult};
ghost use Rattle.book.specs.Books.{book_of, terms_of as terms_of_book, refused_make, unmade};
ghost use Rattle.journal.specs.Journals.{terms_of, meaning_of, state_of, entries_of, room_of, IsNew, answer, left, listed, noted};
ghost use Rattle.ledger.specs.Ledger.{Life};
ghost use Rattle.std.specs.Result.{result_err};

use crate::journal::Journal;
use book::{Book, NotMade};
use coded::ClassLine;
use history::MOST_CALLS;
use ledger::{Call, Entry, Fault, Payment};
use std::alloc::{AllocError, Global};
use terms::Terms;

// A call with its answer.
fn entry(call: Call, answer: Result<(), Fault>) -> Entry
    ensures { result ≡ record { call = call; answer = result_err answer } }
{
    Entry {
        call,
        answer: answer.err(),
    }
}

impl<T: Terms> Journal<T> {
    /// A new book, and no call yet. It is refused by 1, 2 or 3, and then the terms are given back.
    pub fn open(
        heap: Global,
        terms: T,
        month: u32,
        accounts: u32,
        lines: &[ClassLine],
    ) -> Result<Journal<T>, NotMade<T>>
        ensures state { IfOk result (λ j. IsNew j month accounts lines.now) }
        ensures entries { IfOk result (λ j. entries_of j ≡ []) }
        ensures terms { MatchResult result (λ j. terms_of j ≡ terms) (λ e. e.terms ≡ terms) }
        ensures refused { refused_make (T.meaning terms) month accounts lines.now ≡ unmade result }
    {
        let book = Book::make(terms, month, accounts, lines)?;
        Ok(Journal {
            book,
            entries: Vec::new(heap),
        })
    }

    /// The book.
    pub fn book(&self) -> &Book<T>
        ensures terms { terms_of_book result.now ≡ terms_of self.now }
        ensures state { book_of result.now ≡ state_of self.now }
    {
        &self.book
    }

    /// The book's calls and answers, in their order: they reached the book, and the law of the ledger held at the start and
    /// after each of them.
    pub fn entries(&self) -> &[Entry]
        ensures is { result.now ≡ entries_of self.now }
        ensures law { ∥ Life (meaning_of self.now) (reverse result.now) (state_of self.now) ∥₁ }
    {
        self.entries.as_slice()
    }

    /// Hands a call to the book and notes it with its answer. A settle and a close get the first lines of the list, as many
    /// as the call says. Where no memory for the note is to be had, or as many calls are noted as can be read, nothing is
    /// done; never while there is room.
    pub fn call(
        &mut self,
        call: Call,
        list: &mut [Payment; 32],
    ) -> Result<Result<(), Fault>, AllocError>
        ensures answer { IfOk result (λ r. r ≡ answer self.old call) }
        ensures state { IfOk result (λ r. state_of self.new ≡ left self.old call) }
        ensures list { IfOk result (λ r. list.new ≡ listed self.old call list.old) }
        ensures entries { IfOk result (λ r. entries_of self.new ≡ noted self.old call) }
        ensures full { IfErr result (λ e. room_of self.old ≤ length (entries_of self.old)) }
        ensures state_kept { IfErr result (λ e. state_of self.new ≡ state_of self.old) }
        ensures list_kept { IfErr result (λ e. list.new ≡ list.old) }
        ensures entries_kept { IfErr result (λ e. entries_of self.new ≡ entries_of self.old) }
        ensures terms { terms_of self.new ≡ terms_of self.old }
    {
        // A journal has room for as many calls as can be read.
        if self.entries.len() >= MOST_CALLS {
            return Err(AllocError);
        }
        self.entries.reserve(1)?;
        let answer = self.book.call(call, list);
        self.entries.push(entry(call, answer))?;
        Ok(answer)
    }
}
