// What a call does to all accounts of a book.
ghost use Rattle.std.specs.Prelude.{◌≡◌, ℕ, ◌<◌, ◌≤◌, true, length, None, ◌+ℤ◌, neg_ℤ, cond, ◌==◌, unsigned_abs, slice_index_or};
ghost use Rattle.amounts.specs.Amounts.{final_payment};
ghost use Rattle.amounts.specs.SumsOfWhole.{sum_z};
ghost use Rattle.book.specs.Quotes.{quote_at, quote_pay, SmallQuotes};
ghost use Rattle.book.specs.Rows.{rows_of, row_paid, row_credited, row_carried, parts_pay_at, Room, CashFits, Flagged, SmallDay, SmallCents, Known};
ghost use Rattle.day_table.specs.Table.{day_in};
ghost use Rattle.ledger.specs.Calls.{lots_fit, cash_fits, row_traded, after_parts};
ghost use Rattle.ledger.specs.Questions.{written};
ghost use Rattle.ledger.specs.State.{nil_row};
ghost use Rattle.ledger.specs.Words.{all_below, at, share};

use crate::account::Account;
use crate::arithmetic::{cash_with, is_cash, negative};
use crate::quotes::Quote;
use arrayvec::ArrayVec;
use day_table::DayTable;
use ledger::Payment;
use std::array;

/// So many accounts that hold nothing.
pub(crate) fn empty_accounts(count: u32) -> ArrayVec<Account, 32>
    requires { count ≤ 32 }
    ensures long { length result.items ≡ count }
    ensures rows { (a : ℕ) → rows_of result.items a ≡ nil_row }
{
    let mut accounts = ArrayVec::new();
    for _ in 0..count {
        accounts.push(Account::default());
    }
    accounts
}

// ---- a trade

// One account takes lots.
fn take(accounts: &mut [Account], account: u32, class: u32, lots: i32, price: i32)
    requires known { (account < length accounts.old) × (class < 12) }
    requires small { (unsigned_abs lots ≤ 1000) × (unsigned_abs price ≤ 100000) }
    requires room { Room (rows_of accounts.old account) class lots price }
    ensures long { length accounts.new ≡ length accounts.old }
    ensures rows { (a : ℕ) → rows_of accounts.new a ≡ cond (a == account) (row_traded class price lots (rows_of accounts.old account)) (rows_of accounts.old a) }
{
    accounts[account as usize].take(class, lots, price);
}

/// Lots of a class go from the seller to the buyer, at a price.
pub(crate) fn exchange(
    accounts: &mut [Account],
    buyer: u32,
    seller: u32,
    class: u32,
    lots: i32,
    price: i32,
)
    requires known { (buyer < length accounts.old) × ((seller < length accounts.old) × (class < 12)) }
    requires apart { buyer ≡ seller → ⊥ }
    requires small { (unsigned_abs lots ≤ 1000) × (unsigned_abs price ≤ 100000) }
    requires bought { Room (rows_of accounts.old buyer) class lots price }
    requires sold { Room (rows_of accounts.old seller) class (neg_ℤ lots) price }
    ensures long { length accounts.new ≡ length accounts.old }
    ensures rows { (a : ℕ) → rows_of accounts.new a ≡ row_traded class price (share buyer seller lots a) (rows_of accounts.old a) }
{
    take(accounts, buyer, class, lots, price);
    take(accounts, seller, class, negative(lots), price);
}

// ---- payments

// What one account is paid where its lots in a class are settled.
fn settle_pay_at(
    accounts: &[Account],
    class: u32,
    quantity: u32,
    price: i32,
    last: i32,
    account: usize,
) -> i64
    requires known { (class < 12) × (quantity ≤ 8940) }
    requires small { (unsigned_abs price ≤ 100000) × (unsigned_abs last ≤ 100000) }
    ensures { account < length accounts.now → result ≡ final_payment quantity ((rows_of accounts.now account).lots class) price last }
{
    match accounts.get(account) {
        Some(here) => here.settle_pay(class, quantity, price, last),
        None => 0,
    }
}

/// What each account is paid where its lots in a class are settled, and 0 past the last account.
pub(crate) fn settle_pays(
    accounts: &[Account],
    class: u32,
    quantity: u32,
    price: i32,
    last: i32,
) -> [i64; 32]
    requires known { (class < 12) × (quantity ≤ 8940) }
    requires small { (unsigned_abs price ≤ 100000) × (unsigned_abs last ≤ 100000) }
    ensures { (a : ℕ) → a < length accounts.now → a < 32 → at result a ≡ final_payment quantity ((rows_of accounts.now a).lots class) price last }
{
    array::from_fn(|account| settle_pay_at(accounts, class, quantity, price, last, account))
}

// What one account is paid as variation margin.
fn variation_at(accounts: &[Account], quotes: &[Quote; 12], classes: u32, account: usize) -> i64
    requires { (classes ≤ 12) × (SmallQuotes quotes.now) }
    ensures is { account < length accounts.now → result ≡ sum_z classes (λ c. quote_pay (quote_at quotes.now c) (rows_of accounts.now account) c) }
    ensures bound { unsigned_abs result ≤ 2145632184000000000 }
{
    match accounts.get(account) {
        Some(here) => here.variation(quotes, classes),
        None => 0,
    }
}

/// What each account is paid as variation margin, and 0 past the last account.
pub(crate) fn variation_pays(accounts: &[Account], quotes: &[Quote; 12], classes: u32) -> [i64; 32]
    requires { (classes ≤ 12) × (SmallQuotes quotes.now) }
    ensures is { (a : ℕ) → a < length accounts.now → a < 32 → at result a ≡ sum_z classes (λ c. quote_pay (quote_at quotes.now c) (rows_of accounts.now a) c) }
    ensures bound { (a : ℕ) → unsigned_abs (at result a) ≤ 2145632184000000000 }
{
    array::from_fn(|account| variation_at(accounts, quotes, classes, account))
}

// One account's payment with what it is paid for parts.
fn with_parts(
    accounts: &[Account],
    pays: &[i64; 32],
    day: &DayTable,
    newest: &[i32; 12],
    account: usize,
) -> i64
    requires known { (account < 32) × (day.now.classes ≤ 12) }
    requires small { (SmallDay day.now) × (SmallCents newest.now) }
    requires bound { (a : ℕ) → unsigned_abs (at pays.now a) ≤ 2145632184000000000 }
    ensures { account < length accounts.now → result ≡ at pays.now account +ℤ parts_pay_at (day_in day.now) (at newest.now) (rows_of accounts.now account) }
{
    match accounts.get(account) {
        Some(here) => pays[account] + here.parts_pay(day, newest),
        None => pays[account],
    }
}

/// Payments with what each account is paid for the parts.
pub(crate) fn pays_with_parts(
    accounts: &[Account],
    pays: &[i64; 32],
    day: &DayTable,
    newest: &[i32; 12],
) -> [i64; 32]
    requires known { day.now.classes ≤ 12 }
    requires small { (SmallDay day.now) × (SmallCents newest.now) }
    requires bound { (a : ℕ) → unsigned_abs (at pays.now a) ≤ 2145632184000000000 }
    ensures { (a : ℕ) → a < length accounts.now → a < 32 → at result a ≡ at pays.now a +ℤ parts_pay_at (day_in day.now) (at newest.now) (rows_of accounts.now a) }
{
    array::from_fn(|account| with_parts(accounts, pays, day, newest, account))
}

// Whether an account's cash stays in range.
fn may_receive(accounts: &[Account], pays: &[i64; 32], account: usize) -> bool
    requires { (account < length accounts.now) × (account < 32) }
    ensures { result ≡ cash_fits ((rows_of accounts.now account).cash +ℤ at pays.now account) }
{
    is_cash(cash_with(accounts[account].cash(), pays[account]))
}

/// Whether every account's cash stays in range.
pub(crate) fn may_pay(accounts: &[Account], pays: &[i64; 32]) -> bool
    requires { length accounts.now ≤ 32 }
    ensures { result ≡ all_below (length accounts.now) (λ a. cash_fits ((rows_of accounts.now a).cash +ℤ at pays.now a)) }
{
    (0..accounts.len()).all(|account| may_receive(accounts, pays, account))
}

/// Each account is paid out in a class.
pub(crate) fn settle_all(accounts: &mut [Account], class: u32, pays: &[i64; 32])
    requires known { (class < 12) × (length accounts.old ≤ 32) }
    requires fits { CashFits accounts.old pays.now }
    ensures long { length accounts.new ≡ length accounts.old }
    ensures rows { (a : ℕ) → a < length accounts.old → rows_of accounts.new a ≡ row_paid class (at pays.now a) (rows_of accounts.old a) }
{
    for account in 0..accounts.len() {
        accounts[account].settle(class, pays[account]);
    }
}

/// Each account is paid by a close.
pub(crate) fn close_all(accounts: &mut [Account], pays: &[i64; 32])
    requires known { length accounts.old ≤ 32 }
    requires fits { CashFits accounts.old pays.now }
    ensures long { length accounts.new ≡ length accounts.old }
    ensures rows { (a : ℕ) → a < length accounts.old → rows_of accounts.new a ≡ row_credited (at pays.now a) (rows_of accounts.old a) }
{
    for account in 0..accounts.len() {
        accounts[account].close(pays[account]);
    }
}

fn line(account: u32, pays: &[i64; 32]) -> Payment
    requires { account ≤ 31 }
    ensures { result ≡ record { account = account; cents = at pays.now account } }
{
    Payment {
        account,
        cents: i128::from(pays[account as usize]),
    }
}

/// One line for each account, in account order; further lines are untouched.
pub(crate) fn write_lines(count: u32, pays: &[i64; 32], list: &mut [Payment])
    requires { (count ≤ 32) × (count ≤ length list.old) }
    ensures { list.new ≡ written list.old count (at pays.now) }
{
    for account in 0..count {
        list[account as usize] = line(account, pays);
    }
}

// ---- parts and successors

/// Whether every account stays within the limit after the parts.
pub(crate) fn all_keep_limit(accounts: &[Account], day: &DayTable) -> bool
    requires { (day.now.classes ≤ 12) × (Flagged day.now) }
    ensures { result ≡ all_below (length accounts.now) (λ a. all_below day.now.classes (λ c. lots_fit (after_parts (day_in day.now) (rows_of accounts.now a) c))) }
{
    accounts.iter().all(|account| account.keeps_limit(day))
}

/// The lots of each account go on to the next open day.
pub(crate) fn carry_all(accounts: &mut [Account], day: &DayTable, sources: &[Option<u32>; 12])
    requires known { Known day.now.classes sources.now }
    requires day { (day.now.classes ≤ 12) × (Flagged day.now) }
    requires keeps { (a : ℕ) → a < length accounts.old → all_below day.now.classes (λ c. lots_fit (after_parts (day_in day.now) (rows_of accounts.old a) c)) ≡ true }
    ensures long { length accounts.new ≡ length accounts.old }
    ensures rows { (a : ℕ) → a < length accounts.old → rows_of accounts.new a ≡ row_carried (day_in day.now) (λ t. slice_index_or sources.now t None) (rows_of accounts.old a) }
{
    for account in 0..accounts.len() {
        accounts[account].carry(day, sources);
    }
}
