// The path of an account, written behind what was told before.
ghost use Rattle.std.specs.Prelude.{◌≡◌, ◌+◌, ◌-◌, ◌<◌, ◌++◌, IfOk, Some, string_bytes};
ghost use Rattle.book.specs.Books.{book_of, meaning_of};
ghost use Rattle.ledger.specs.State.{quantity_now};
ghost use Rattle.ledger.specs.Questions.{margins_refusal, margins as margins_of};
ghost use Rattle.life.specs.Paths.{amount_or_blank, unless_refused, span_written, holding_written, account_row, position_row, class_row, path_text, followed_text};
ghost use Rattle.std.specs.List.{flat_map, range_with_len};

use book::Book;
use iso::{IsoDay, IsoMonth};
use products::Product;
use std::alloc::AllocError;
use std::fmt;
use terms::{Months, Terms};

// An amount, or nothing.
#[derive(Clone, Copy)]
struct AmountOrBlank {
    amount: Option<i128>,
}

impl fmt::Display for AmountOrBlank {
    ghost output = { λ a. Some (amount_or_blank a.amount) };

    fn fmt<W: fmt::Write>(&self, f: &mut fmt::Formatter<W>) -> fmt::Result {
        match self.amount {
            Some(amount) => write!(f, "{amount}"),
            None => Ok(()),
        }
    }
}

// The last of a run of months.
fn last_month(months: Months) -> u64
    ensures { result ≡ months.first + (months.count - 1) }
{
    u64::from(months.first) + u64::from(months.count.saturating_sub(1))
}

// The first and the last of a run of months.
#[derive(Clone, Copy)]
struct Span {
    months: Months,
}

impl fmt::Display for Span {
    ghost output = { λ s. Some (span_written s.months) };

    fn fmt<W: fmt::Write>(&self, f: &mut fmt::Formatter<W>) -> fmt::Result {
        let first = IsoMonth {
            month: u64::from(self.months.first),
        };
        let last = IsoMonth {
            month: last_month(self.months),
        };
        write!(f, "{first},{last}")
    }
}

// What an account holds in a class: the quantity of one lot, the lots and the last price.
#[derive(Clone, Copy)]
struct Holding {
    quantity: u32,
    lots: i32,
    price: Option<i128>,
}

impl fmt::Display for Holding {
    ghost output = { λ h. Some (holding_written h.quantity h.lots h.price) };

    fn fmt<W: fmt::Write>(&self, f: &mut fmt::Formatter<W>) -> fmt::Result {
        let Holding {
            quantity,
            lots,
            price,
        } = *self;
        let price = AmountOrBlank { amount: price };
        write!(f, "{quantity},{lots},{price}")
    }
}

// An account of a book over a product.
#[derive(Drop)]
pub(crate) struct Path<'a, T: Terms> {
    pub(crate) product: Product,
    pub(crate) book: &'a Book<T>,
    pub(crate) account: u32,
}

// The last price of a class, if it has one.
fn last_price<T: Terms>(book: &Book<T>, class: u32) -> Option<i128>
    ensures { result ≡ (book_of book.now).market.last class }
{
    book.last_price(class).map(i128::from)
}

impl<T: Terms> Path<'_, T> {
    fn cash(&self) -> i64
        requires { self.now.account < (book_of self.now.book.now).made.accounts }
        ensures { result ≡ ((book_of self.now.book.now).rows self.now.account).cash }
    {
        self.book.cash(self.account).unwrap_or(0)
    }

    // The margins, unless they are refused.
    fn margins(&self) -> Option<i128>
        ensures { result ≡ unless_refused (margins_refusal (meaning_of self.now.book.now) (book_of self.now.book.now) self.now.account) (margins_of (meaning_of self.now.book.now) (book_of self.now.book.now) self.now.account) }
    {
        self.book.margins(self.account).ok()
    }

    // The lots in a class.
    fn lots(&self, class: u32) -> i32
        requires { (self.now.account < (book_of self.now.book.now).made.accounts) × (class < (meaning_of self.now.book.now).classes) }
        ensures { result ≡ ((book_of self.now.book.now).rows self.now.account).lots class }
    {
        self.book.holding(self.account, class).unwrap_or(0)
    }

    // The quantity of one lot in a class.
    fn quantity(&self, class: u32) -> u32
        ensures { result ≡ quantity_now (meaning_of self.now.book.now) (book_of self.now.book.now) class }
    {
        terms::quantity_of(self.book.terms(), self.book.day(), class)
    }

    // The row of the account.
    fn write_account(&self, text: &mut String) -> Result<(), AllocError>
        requires { self.now.account < (book_of self.now.book.now).made.accounts }
        ensures { IfOk result (λ u. string_bytes text.new ≡ string_bytes text.old ++ account_row (meaning_of self.now.book.now) self.now.product (book_of self.now.book.now) self.now.account) }
    {
        let day = IsoDay {
            day: self.book.day(),
        };
        let account = self.account;
        let cash = self.cash();
        let margins = AmountOrBlank {
            amount: self.margins(),
        };
        writeln!(text, "account,{day},{account},{cash},{margins}")
    }

    // The row of a class that the account holds.
    fn write_position(
        &self,
        text: &mut String,
        class: u32,
        months: Months,
        lots: i32,
    ) -> Result<(), AllocError>
        ensures { IfOk result (λ u. string_bytes text.new ≡ string_bytes text.old ++ position_row (meaning_of self.now.book.now) self.now.product (book_of self.now.book.now) class months lots) }
    {
        let day = IsoDay {
            day: self.book.day(),
        };
        let name = self.product.class_text(class);
        let span = Span { months };
        let holding = Holding {
            quantity: self.quantity(class),
            lots,
            price: last_price(self.book, class),
        };
        writeln!(text, "position,{day},{name},{span},{holding}")
    }

    // The row of a class, if the account holds lots in it.
    fn write_class(&self, text: &mut String, class: u32) -> Result<(), AllocError>
        requires { (self.now.account < (book_of self.now.book.now).made.accounts) × (class < (meaning_of self.now.book.now).classes) }
        ensures { IfOk result (λ u. string_bytes text.new ≡ string_bytes text.old ++ class_row (meaning_of self.now.book.now) self.now.product (book_of self.now.book.now) self.now.account class) }
    {
        let lots = self.lots(class);
        if lots == 0 {
            return Ok(());
        }
        match self.book.terms().class_on(self.book.day(), class) {
            Some(here) => self.write_position(text, class, here.months, lots),
            None => Ok(()),
        }
    }

    // The rows of all classes.
    fn write_classes(&self, text: &mut String) -> Result<(), AllocError>
        requires { self.now.account < (book_of self.now.book.now).made.accounts }
        ensures { IfOk result (λ u. string_bytes text.new ≡ string_bytes text.old ++ flat_map (class_row (meaning_of self.now.book.now) self.now.product (book_of self.now.book.now) self.now.account) (range_with_len 0 (meaning_of self.now.book.now).classes)) }
    {
        for class in 0..self.book.terms().classes() {
            self.write_class(text, class)?;
        }
        Ok(())
    }

    // The row of the account and those of its classes.
    #[tactic(auto, unfolding(crate::specs::Paths::path_text))]
    fn write_known(&self, text: &mut String) -> Result<(), AllocError>
        requires { self.now.account < (book_of self.now.book.now).made.accounts }
        ensures { IfOk result (λ u. string_bytes text.new ≡ string_bytes text.old ++ path_text (meaning_of self.now.book.now) self.now.product (book_of self.now.book.now) self.now.account) }
    {
        self.write_account(text)?;
        self.write_classes(text)
    }

    // The path, if the book has the account.
    pub(crate) fn write(&self, text: &mut String) -> Result<(), AllocError>
        ensures { IfOk result (λ u. string_bytes text.new ≡ string_bytes text.old ++ followed_text (meaning_of self.now.book.now) self.now.product (book_of self.now.book.now) (Some self.now.account)) }
    {
        if self.account >= self.book.accounts() {
            return Ok(());
        }
        self.write_known(text)
    }
}
