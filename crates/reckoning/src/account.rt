// Of one account.
ghost use Rattle.std.specs.Prelude.{◌≡◌, ◌++◌, ◌<◌, IfOk, Some, None, string_bytes};
ghost use Rattle.journal.specs.Journals.{meaning_of, state_of, history_of, unknown, held_in_month, Lives, Stated};
ghost use Rattle.ledger.specs.History.{net, booked, final};
ghost use Rattle.ledger.specs.Ledger.{at_last, at_final};
ghost use Rattle.reckoning.specs.Reckonings.{line, settled_told, place_told, month_told, month_line, cash_told};
ghost use Rattle.reckoning.specs.Tellings.{month_of, months_of, cash_of, account_of, reckoned, Adds};

use iso::IsoMonth;
use journal::{Journal, Statement};
use std::alloc::AllocError;
use std::fmt;
use terms::Terms;

// Whether a month is finally settled, and at which price.
#[derive(Clone, Copy)]
struct Settled {
    price: Option<i32>,
}

impl fmt::Display for Settled {
    ghost output = { λ s. Some (settled_told s.price) };

    #[tactic(auto, unfolding(crate::specs::Reckonings::settled_told))]
    fn fmt<W: fmt::Write>(&self, f: &mut fmt::Formatter<W>) -> fmt::Result {
        match self.price {
            Some(price) => write!(f, "settled at {price}"),
            None => write!(f, "not settled"),
        }
    }
}

// An account and a month.
#[derive(Clone, Copy)]
struct Place {
    account: u32,
    month: u32,
}

impl fmt::Display for Place {
    ghost output = { λ p. Some (place_told p.account p.month) };

    #[tactic(auto, unfolding(crate::specs::Reckonings::place_told))]
    fn fmt<W: fmt::Write>(&self, f: &mut fmt::Formatter<W>) -> fmt::Result {
        let account = self.account;
        let month = IsoMonth {
            month: u64::from(self.month),
        };
        write!(f, "account {account}, {month}")
    }
}

// A month of an account: its buys less sells, what it holds, and whether the month is settled.
#[derive(Clone, Copy)]
struct MonthLine {
    account: u32,
    month: u32,
    bought: i64,
    holds: i128,
    price: Option<i32>,
}

impl MonthLine {
    fn place(&self) -> Place
        ensures { result ≡ record { account = self.now.account; month = self.now.month } }
    {
        Place {
            account: self.account,
            month: self.month,
        }
    }

    fn settled(&self) -> Settled
        ensures { result ≡ record { price = self.now.price } }
    {
        Settled { price: self.price }
    }
}

impl fmt::Display for MonthLine {
    ghost output = { λ l. Some (month_told l.account l.month l.bought l.holds l.price) };

    fn fmt<W: fmt::Write>(&self, f: &mut fmt::Formatter<W>) -> fmt::Result {
        write!(
            f,
            "{}: buys less sells {} lots; holds {} lots; {}",
            self.place(),
            self.bought,
            self.holds,
            self.settled()
        )
    }
}

// Tells a month, if the account has bought more or less of it than it sold.
fn write_month(text: &mut String, month: MonthLine) -> Result<(), AllocError>
    ensures { IfOk result (λ u. string_bytes text.new ≡ string_bytes text.old ++ month_line month.account month.month month.bought month.holds month.price) }
{
    if month.bought == 0 {
        return Ok(());
    }
    writeln!(text, "{month}")
}

// What an account holds in a month.
fn held<T: Terms>(journal: &Journal<T>, account: u32, month: u32) -> i128
    requires { unknown journal.now account ≡ None }
    ensures { result ≡ held_in_month journal.now account month }
{
    journal.held(account, month).unwrap_or(0)
}

// A month of an account, by its statement.
fn month_line<T: Terms>(
    journal: &Journal<T>,
    statement: &Statement,
    account: u32,
    month: u32,
) -> MonthLine
    requires states { Stated journal.now account statement.now }
    requires known { (unknown journal.now account ≡ None) × (month < 1200) }
    ensures place { (result.account ≡ account) × (result.month ≡ month) }
    ensures bought { result.bought ≡ net (meaning_of journal.now) (state_of journal.now).made.month (history_of journal.now) account month }
    ensures holds { result.holds ≡ held_in_month journal.now account month }
    ensures price { result.price ≡ final (meaning_of journal.now) (state_of journal.now).made.month (history_of journal.now) month }
{
    MonthLine {
        account,
        month,
        bought: statement.net(month),
        holds: held(journal, account, month),
        price: statement.final_price(month),
    }
}

// Tells a month, by the account's statement.
fn tell_month<T: Terms>(
    text: &mut String,
    journal: &Journal<T>,
    statement: &Statement,
    account: u32,
    month: u32,
) -> Result<(), AllocError>
    requires states { Stated journal.now account statement.now }
    requires known { (unknown journal.now account ≡ None) × (month < 1200) }
    ensures { IfOk result (λ u. string_bytes text.new ≡ string_bytes text.old ++ month_of journal.now account month) }
{
    write_month(text, month_line(journal, statement, account, month))
}

// Tells all months, by the account's statement.
fn tell_months<T: Terms>(
    text: &mut String,
    journal: &Journal<T>,
    statement: &Statement,
    account: u32,
) -> Result<(), AllocError>
    requires states { Stated journal.now account statement.now }
    requires known { unknown journal.now account ≡ None }
    ensures { IfOk result (λ u. string_bytes text.new ≡ string_bytes text.old ++ months_of journal.now account) }
{
    for month in 0..1200 {
        tell_month(text, journal, statement, account, month)?;
    }
    Ok(())
}

// An account's cash, and what explains it.
#[derive(Clone, Copy)]
struct CashLine {
    account: u32,
    at_last: i128,
    at_final: i128,
    booked: i128,
    cash: i64,
}

impl fmt::Display for CashLine {
    ghost output = { λ l. Some (cash_told l.account l.at_last l.at_final l.booked l.cash) };

    #[tactic(auto, unfolding(crate::specs::Reckonings::cash_told))]
    fn fmt<W: fmt::Write>(&self, f: &mut fmt::Formatter<W>) -> fmt::Result {
        let CashLine {
            account,
            at_last,
            at_final,
            booked,
            cash,
        } = *self;
        write!(
            f,
            "account {account}: holdings at last prices {at_last}, plus settled months at final prices {at_final}, less trades at cost {booked}; cash {cash} cents"
        )
    }
}

// Tells the cash.
fn write_cash(text: &mut String, cash: CashLine) -> Result<(), AllocError>
    ensures { IfOk result (λ u. string_bytes text.new ≡ string_bytes text.old ++ line (cash_told cash.account cash.at_last cash.at_final cash.booked cash.cash)) }
{
    writeln!(text, "{cash}")
}

// What an account has in cash.
fn cash_of<T: Terms>(journal: &Journal<T>, account: u32) -> i64
    requires { unknown journal.now account ≡ None }
    ensures { result ≡ ((state_of journal.now).rows account).cash }
{
    journal.book().cash(account).unwrap_or(0)
}

// An account's cash, by its statement.
fn cash_line<T: Terms>(journal: &Journal<T>, statement: &Statement, account: u32) -> CashLine
    requires states { Stated journal.now account statement.now }
    requires known { unknown journal.now account ≡ None }
    ensures account { result.account ≡ account }
    ensures at_last { result.at_last ≡ at_last (meaning_of journal.now) (history_of journal.now) (state_of journal.now) account }
    ensures at_final { result.at_final ≡ at_final (meaning_of journal.now) (history_of journal.now) (state_of journal.now) account }
    ensures booked { result.booked ≡ booked (meaning_of journal.now) (state_of journal.now).made.month (history_of journal.now) account }
    ensures cash { result.cash ≡ ((state_of journal.now).rows account).cash }
{
    CashLine {
        account,
        at_last: statement.at_last,
        at_final: statement.at_final,
        booked: statement.booked(),
        cash: cash_of(journal, account),
    }
}

// Tells the cash, by the account's statement.
fn tell_cash<T: Terms>(
    text: &mut String,
    journal: &Journal<T>,
    statement: &Statement,
    account: u32,
) -> Result<(), AllocError>
    requires states { Stated journal.now account statement.now }
    requires known { unknown journal.now account ≡ None }
    ensures { IfOk result (λ u. string_bytes text.new ≡ string_bytes text.old ++ cash_of journal.now account) }
{
    write_cash(text, cash_line(journal, statement, account))
}

// Tells an account's months and its cash, by its statement.
fn tell_known<T: Terms>(
    text: &mut String,
    journal: &Journal<T>,
    statement: &Statement,
    account: u32,
) -> Result<(), AllocError>
    requires states { Stated journal.now account statement.now }
    requires known { unknown journal.now account ≡ None }
    ensures { IfOk result (λ u. string_bytes text.new ≡ string_bytes text.old ++ account_of journal.now account) }
{
    tell_months(text, journal, statement, account)?;
    tell_cash(text, journal, statement, account)
}

/// The months of an account in which it has bought more or less than it sold, and its cash, behind what was told before;
/// nothing of an account that the book does not have.
pub fn tell_account<T: Terms>(
    text: &mut String,
    journal: &Journal<T>,
    account: u32,
) -> Result<(), AllocError>
    ensures text { IfOk result (λ u. Adds text.old text.new (reckoned journal.now account)) }
    ensures law { ∥ Lives journal.now ∥₁ }
{
    let Ok(statement) = journal.statement(account) else {
        return Ok(());
    };
    tell_known(text, journal, &statement, account)
}
