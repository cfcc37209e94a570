// What one call adds to a reading.
ghost use Rattle.std.specs.Prelude.{◌≡◌, ℕ, ◌+◌, ◌^◌, ◌<◌, ◌≤◌, Some, None, cond, pos, ◌+ℤ◌, ◌*ℤ◌, ◌==◌, slice_index_or, unsigned_abs};
ghost use Rattle.amounts.specs.SumsOfWhole.{if_z};
ghost use Rattle.history.specs.Small.{MonthsIn, RoomFor};
ghost use Rattle.ledger.specs.History.{first_of};
ghost use Rattle.ledger.specs.Words.{at, share};
ghost use Rattle.terms.specs.Day.{next_day};
ghost use Rattle.terms.specs.Meaning.{has, in_months};

use terms::{ClassTerms, Months, Terms, TermsOpenDays};

// Lots where a test passes, else none.
fn lots_if(test: bool, lots: i64) -> i64
    ensures { result ≡ if_z test lots }
{
    if test { lots } else { 0 }
}

// What an account deals in a trade: the lots where it buys, less the lots where it sells.
pub(crate) fn dealt(buyer: u32, seller: u32, lots: i32, account: u32) -> i64
    ensures is { result ≡ share buyer seller lots account }
    ensures bound { unsigned_abs result ≤ 2 ^ 31 }
{
    let lots = i64::from(lots);
    lots_if(account == buyer, lots) + lots_if(account == seller, -lots)
}

// What lots cost at a price, for one unit of quantity.
fn worth(dealt: i64, price: i32) -> i128
    requires { unsigned_abs dealt ≤ 2 ^ 31 }
    ensures is { result ≡ dealt *ℤ price }
    ensures bound { unsigned_abs result ≤ 2 ^ 62 }
{
    i128::from(dealt) * i128::from(price)
}

pub(crate) fn at_cost(quantity: u32, dealt: i64, price: i32) -> i128
    requires { (quantity ≤ 8940) × (unsigned_abs dealt ≤ 2 ^ 31) }
    ensures is { result ≡ pos quantity *ℤ (dealt *ℤ price) }
    ensures bound { unsigned_abs result ≤ 2 ^ 76 }
{
    i128::from(quantity) * worth(dealt, price)
}

pub(crate) fn more_cost(cost: i128, more: i128) -> i128
    requires { (unsigned_abs cost ≤ 2 ^ 120) × (unsigned_abs more ≤ 2 ^ 76) }
    ensures { result ≡ cost +ℤ more }
{
    cost + more
}

pub(crate) fn next_day<T: Terms>(terms: &T, day: u32) -> u32
    ensures { result ≡ next_day (T.meaning terms.now) day }
{
    calendars::next_after(&TermsOpenDays { terms }, day).unwrap_or(0)
}

// Adds lots in each of a run of months.
fn add_in_months(nets: &mut [i64; 1200], months: Months, lots: i64)
    requires months { months.first + months.count ≤ 1200 }
    requires room { RoomFor 1200 nets.old lots }
    ensures { (m : ℕ) → at nets.new m ≡ at nets.old m +ℤ if_z (in_months (Some months) m) lots }
{
    for month in months.first..months.first + months.count {
        nets[month as usize] += lots;
    }
}

// Adds lots in each month of a class.
pub(crate) fn add_in(nets: &mut [i64; 1200], class: Option<ClassTerms>, lots: i64)
    requires months { MonthsIn class }
    requires room { RoomFor 1200 nets.old lots }
    ensures { (m : ℕ) → at nets.new m ≡ at nets.old m +ℤ if_z (has class m) lots }
{
    if let Some(class) = class {
        add_in_months(nets, class.months, lots);
    }
}

// Adds lots in a class, by number; nothing for a number past the table.
pub(crate) fn add_at(since: &mut [i64; 12], class: u32, lots: i64)
    requires { RoomFor 12 since.old lots }
    ensures { (c : ℕ) → c < 12 → at since.new c ≡ at since.old c +ℤ if_z (c == class) lots }
{
    if class < 12 {
        since[class as usize] += lots;
    }
}

// Gives each month of a class a final price.
pub(crate) fn settle_in(finals: &mut [Option<i32>; 1200], class: Option<ClassTerms>, price: i32)
    requires { MonthsIn class }
    ensures { (m : ℕ) → slice_index_or finals.new m None ≡ first_of (cond (has class m) (Some price) None) (slice_index_or finals.old m None) }
{
    if let Some(class) = class {
        settle_months(finals, class.months, price);
    }
}

// Gives each of a run of months a final price.
fn settle_months(finals: &mut [Option<i32>; 1200], months: Months, price: i32)
    requires { months.first + months.count ≤ 1200 }
    ensures { (m : ℕ) → slice_index_or finals.new m None ≡ first_of (cond (in_months (Some months) m) (Some price) None) (slice_index_or finals.old m None) }
{
    for month in months.first..months.first + months.count {
        finals[month as usize] = Some(price);
    }
}

pub(crate) fn no_lots() -> [i64; 1200]
    ensures { (m : ℕ) → at result m ≡ pos 0 }
{
    [0; 1200]
}

pub(crate) fn no_finals() -> [Option<i32>; 1200]
    ensures { (m : ℕ) → slice_index_or result m None ≡ None }
{
    [None; 1200]
}

pub(crate) fn no_lots_by_class() -> [i64; 12]
    ensures { (c : ℕ) → at result c ≡ pos 0 }
{
    [0; 12]
}
