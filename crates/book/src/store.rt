// Terms on the day of a book, and its tables.
ghost use Rattle.std.specs.Prelude.{◌≡◌, ℤ, ◌<◌, ◌≤◌, true, ◌+ℤ◌};
ghost use Rattle.book.specs.Rows.{CashFits, Flagged, SmallDay};
ghost use Rattle.book.specs.Stores.{meaning_in, state_in, day_in_store, Pays};
ghost use Rattle.day_table.specs.Table.{day_in, table_of};
ghost use Rattle.ledger.specs.Calls.{all_rows, cash_fits, known};
ghost use Rattle.ledger.specs.State.{Row};

use crate::accounts::may_pay;
use crate::tables::Tables;
use day_table::{DatedTerms, DayTable};
use terms::Terms;

/// Terms with the table of the book's day, and the book's tables.
#[derive(Drop)]
pub(crate) struct Store<T: Terms> {
    pub(crate) dated: DatedTerms<T>,
    pub(crate) tables: Tables,
}

impl<T: Terms> Store<T> {
    /// What the terms say of the book's day.
    pub(crate) fn day(&self) -> &DayTable
        ensures table { result.now ≡ self.now.dated.table }
        ensures read { result.now ≡ table_of (meaning_in self.now) (state_in self.now).market.day }
        ensures day { day_in result.now ≡ day_in_store self.now }
        ensures twelve { result.now.classes ≤ 12 }
        ensures flagged { Flagged result.now }
        ensures small { SmallDay result.now }
    {
        self.dated.table()
    }

    /// Whether every account's cash stays in range with these payments.
    pub(crate) fn may_pay(&self, pays: &[i64; 32]) -> bool
        ensures is { (f : Row → ℤ) → (Pays self.now f pays.now) → result ≡ all_rows (state_in self.now) (λ r. cash_fits (r.cash +ℤ f r)) }
        ensures fits { result ≡ true → CashFits self.now.tables.accounts.items pays.now }
    {
        may_pay(&self.tables.accounts, pays)
    }

    /// Whether the book has an account.
    pub(crate) fn knows(&self, account: u32) -> bool
        ensures { result ≡ known (state_in self.now) account }
    {
        (account as usize) < self.tables.accounts.len()
    }
}
