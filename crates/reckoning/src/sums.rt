// Over all accounts.
ghost use Rattle.std.specs.Prelude.{◌≡◌, ◌++◌, IfOk, Some, string_bytes};
ghost use Rattle.book.specs.Books.{book_of, meaning_of};
ghost use Rattle.reckoning.specs.Reckonings.{line, even, even_classes, sums_told};
ghost use Rattle.reckoning.specs.Tellings.{sums_of};

use book::Book;
use journal::{cash_sum, lots_sum};
use std::alloc::AllocError;
use std::fmt;
use terms::Terms;

// Whether a class is one of the terms, and the lots of all accounts in it sum to zero.
fn even<T: Terms>(book: &Book<T>, class: u32) -> bool
    ensures { result ≡ even (meaning_of book.now) (book_of book.now) class }
{
    match lots_sum(book, class) {
        Ok(sum) => sum == 0,
        Err(_) => false,
    }
}

// How many such classes there are.
fn even_classes<T: Terms>(book: &Book<T>) -> usize
    ensures { result ≡ even_classes (meaning_of book.now) (book_of book.now) }
{
    (0..book.terms().classes())
        .filter(|&class| even(book, class))
        .count()
}

// In how many of the classes the lots sum to zero, and to what the cash sums.
#[derive(Clone, Copy)]
struct Sums {
    even: usize,
    classes: u32,
    cash: i128,
}

impl fmt::Display for Sums {
    ghost output = { λ s. Some (sums_told s.even s.classes s.cash) };

    #[tactic(auto, unfolding(crate::specs::Reckonings::sums_told))]
    fn fmt<W: fmt::Write>(&self, f: &mut fmt::Formatter<W>) -> fmt::Result {
        let Sums {
            even,
            classes,
            cash,
        } = *self;
        write!(
            f,
            "over all accounts: lots sum to zero in {even} of {classes} classes; cash sums to {cash} cents"
        )
    }
}

// Tells the sums.
fn write_sums(text: &mut String, sums: Sums) -> Result<(), AllocError>
    ensures { IfOk result (λ u. string_bytes text.new ≡ string_bytes text.old ++ line (sums_told sums.even sums.classes sums.cash)) }
{
    writeln!(text, "{sums}")
}

/// The sums over all accounts, of the lots in each class and of the cash, behind what was told before.
pub fn tell_sums<T: Terms>(text: &mut String, book: &Book<T>) -> Result<(), AllocError>
    ensures { IfOk result (λ u. string_bytes text.new ≡ string_bytes text.old ++ sums_of book.now) }
{
    let sums = Sums {
        even: even_classes(book),
        classes: book.terms().classes(),
        cash: cash_sum(book),
    };
    write_sums(text, sums)
}
