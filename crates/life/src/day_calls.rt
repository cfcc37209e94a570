// The calls of a day that is advanced over.
ghost use Rattle.std.specs.Prelude.{◌≡◌, ◌++◌, IfOk};
ghost use Rattle.std.specs.List.{flat_map, range_with_len};
ghost use Rattle.book.specs.Books.{book_of, meaning_of};
ghost use Rattle.life.specs.DayCalls.{unmarked, settle_calls, mark_calls, day_calls};
ghost use Rattle.sheet.specs.Desks.{meaning_at, state_at};

use book::Book;
use ledger::Call;
use sheet::Desk;
use std::alloc::{AllocError, Global};
use terms::Terms;

// The lines of the payment list that a desk lends.
const ROOM: usize = 32;

// Whether a class is tradable and has no price of the day.
fn unmarked<T: Terms>(book: &Book<T>, class: u32) -> bool
    ensures { result ≡ unmarked (meaning_of book.now) (book_of book.now) class }
{
    let tradable = book
        .terms()
        .class_on(book.day(), class)
        .is_some_and(|here| here.tradable);
    tradable && book.day_price(class).is_none()
}

// The mark of a class, if one is due.
fn push_mark<T: Terms>(
    calls: &mut Vec<Call>,
    book: &Book<T>,
    class: u32,
    price: i32,
) -> Result<(), AllocError>
    ensures { IfOk result (λ u. calls.new.items ≡ calls.old.items ++ mark_calls (meaning_of book.now) (book_of book.now) price class) }
{
    if unmarked(book, class) {
        let price = book.last_price(class).unwrap_or(price);
        calls.push(Call::Mark { class, price })?;
    }
    Ok(())
}

// The settle, if the settling class awaits one.
fn push_settle<T: Terms>(
    calls: &mut Vec<Call>,
    book: &Book<T>,
    price: i32,
) -> Result<(), AllocError>
    ensures { IfOk result (λ u. calls.new.items ≡ calls.old.items ++ settle_calls (meaning_of book.now) (book_of book.now) price) }
{
    if book.last_price(book.terms().settling()).is_some() {
        calls.push(Call::Settle { price, room: ROOM })?;
    }
    Ok(())
}

// The marks that are due.
fn push_marks<T: Terms>(calls: &mut Vec<Call>, book: &Book<T>, price: i32) -> Result<(), AllocError>
    ensures { IfOk result (λ u. calls.new.items ≡ calls.old.items ++ flat_map (mark_calls (meaning_of book.now) (book_of book.now) price) (range_with_len 0 (meaning_of book.now).classes)) }
{
    for class in 0..book.terms().classes() {
        push_mark(calls, book, class, price)?;
    }
    Ok(())
}

// The calls of a day on a book: the settle, the marks, the close.
fn calls_on<T: Terms>(heap: Global, book: &Book<T>, price: i32) -> Result<Vec<Call>, AllocError>
    ensures { IfOk result (λ calls. calls.items ≡ day_calls (meaning_of book.now) (book_of book.now) price) }
{
    let mut calls = Vec::new(heap);
    push_settle(&mut calls, book, price)?;
    push_marks(&mut calls, book, price)?;
    calls.push(Call::Close { room: ROOM })?;
    Ok(calls)
}

// The same on the book of a desk.
pub(crate) fn day_calls<T: Terms>(
    heap: Global,
    desk: &Desk<T>,
    price: i32,
) -> Result<Vec<Call>, AllocError>
    ensures { IfOk result (λ calls. calls.items ≡ day_calls (meaning_at desk.now) (state_at desk.now) price) }
{
    calls_on(heap, desk.journal.book(), price)
}
