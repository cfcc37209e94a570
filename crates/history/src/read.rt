// The reading of a history for one account, call by call, as the law of the ledger reads it.
ghost use Rattle.std.specs.Prelude.{◌≡◌, ℕ, ◌+◌, ◌^◌, ◌<◌, ◌≤◌, [], ◌∷◌, Some, None, IfSome, IfNone, cond, ◌+ℤ◌, ◌*ℤ◌, pos, ◌==◌, length, reverse, slice_index_or, unsigned_abs};
ghost use Rattle.amounts.specs.SumsOfWhole.{if_z};
ghost use Rattle.history.specs.Told.{Told};
ghost use Rattle.ledger.specs.History.{History, first_of};
ghost use Rattle.ledger.specs.Words.{at};
ghost use Rattle.terms.specs.Day.{next_day};
ghost use Rattle.terms.specs.Meaning.{has, class_quantity};

use crate::reading::Reading;
use crate::steps::{
    add_at, add_in, at_cost, dealt, more_cost, next_day, no_finals, no_lots, no_lots_by_class,
    settle_in,
};
use ledger::{Call, Entry};
use terms::{Terms, TermsOpenDays};

/// How many calls a reading can take.
pub const MOST_CALLS: usize = 1_000_000_000;

impl Reading {
    // At the start of a book that is made in a month.
    fn start<T: Terms>(terms: &T, month: u32) -> Reading
        ensures calls { result.calls ≡ 0 }
        ensures told { (account : ℕ) → Told (T.meaning terms.now) month [] account result }
    {
        let day = calendars::first_in_month(&TermsOpenDays { terms }, month).unwrap_or(0);
        Reading {
            calls: 0,
            day,
            nets: no_lots(),
            finals: no_finals(),
            since: no_lots_by_class(),
            costs: 0,
            booked: 0,
        }
    }
}

impl Reading {
    // An accepted trade of a class, in which the account deals these lots.
    fn trade<T: Terms>(&mut self, terms: &T, class: u32, dealt: i64, price: i32)
        requires { (self.old.calls < 1000000000) × (unsigned_abs dealt ≤ 2 ^ 31) }
        ensures same { (self.new.calls ≡ self.old.calls + 1) × (self.new.day ≡ self.old.day) × (self.new.finals ≡ self.old.finals) × (self.new.booked ≡ self.old.booked) }
        ensures nets { (m : ℕ) → m < 1200 → at self.new.nets m ≡ at self.old.nets m +ℤ if_z (has ((T.meaning terms.now).on self.old.day class) m) dealt }
        ensures since { (c : ℕ) → c < 12 → at self.new.since c ≡ at self.old.since c +ℤ if_z (c == class) dealt }
        ensures costs { self.new.costs ≡ self.old.costs +ℤ pos (class_quantity (T.meaning terms.now) ((T.meaning terms.now).on self.old.day class)) *ℤ (dealt *ℤ price) }
    {
        let quantity = terms::quantity_of(terms, self.day, class);
        let here = terms.class_on(self.day, class);
        self.calls += 1;
        add_in(&mut self.nets, here, dealt);
        add_at(&mut self.since, class, dealt);
        self.costs = more_cost(self.costs, at_cost(quantity, dealt, price));
    }
}

impl Reading {
    // An accepted settle: the months of the settling class have their final price.
    fn settle<T: Terms>(&mut self, terms: &T, price: i32)
        requires { self.old.calls < 1000000000 }
        ensures same { (self.new.calls ≡ self.old.calls + 1) × (self.new.day ≡ self.old.day) × (self.new.nets ≡ self.old.nets) × (self.new.since ≡ self.old.since) × (self.new.costs ≡ self.old.costs) × (self.new.booked ≡ self.old.booked) }
        ensures finals { (m : ℕ) → m < 1200 → slice_index_or self.new.finals m None ≡ first_of (cond (has ((T.meaning terms.now).on self.old.day (T.meaning terms.now).settling) m) (Some price) None) (slice_index_or self.old.finals m None) }
    {
        let here = terms.class_on(self.day, terms.settling());
        settle_in(&mut self.finals, here, price);
        self.calls += 1;
    }

    // An accepted close: the next open day, before which all trades count at cost.
    fn close<T: Terms>(&mut self, terms: &T)
        requires { self.old.calls < 1000000000 }
        ensures same { (self.new.calls ≡ self.old.calls + 1) × (self.new.nets ≡ self.old.nets) × (self.new.finals ≡ self.old.finals) × (self.new.costs ≡ self.old.costs) }
        ensures day { self.new.day ≡ next_day (T.meaning terms.now) self.old.day }
        ensures since { (c : ℕ) → at self.new.since c ≡ pos 0 }
        ensures booked { self.new.booked ≡ self.old.costs }
    {
        self.day = next_day(terms, self.day);
        self.since = no_lots_by_class();
        self.booked = self.costs;
        self.calls += 1;
    }

    // Any other call, and one that was refused, tells nothing.
    fn pass(&mut self)
        requires { self.old.calls < 1000000000 }
        ensures { (self.new.calls ≡ self.old.calls + 1) × (self.new.day ≡ self.old.day) × (self.new.nets ≡ self.old.nets) × (self.new.finals ≡ self.old.finals) × (self.new.since ≡ self.old.since) × (self.new.costs ≡ self.old.costs) × (self.new.booked ≡ self.old.booked) }
    {
        self.calls += 1;
    }

    // Reads an accepted call for an account.
    fn accept<T: Terms>(&mut self, terms: &T, account: u32, call: Call)
        requires { self.old.calls < 1000000000 }
        ensures calls { self.new.calls ≡ self.old.calls + 1 }
        ensures told { (start : ℕ) (h : History) → Told (T.meaning terms.now) start h account self.old → Told (T.meaning terms.now) start (record { call = call; answer = None } ∷ h) account self.new }
    {
        match call {
            Call::Trade {
                buyer,
                seller,
                class,
                lots,
                price,
            } => self.trade(terms, class, dealt(buyer, seller, lots, account), price),
            Call::Settle { price, .. } => self.settle(terms, price),
            Call::Close { .. } => self.close(terms),
            Call::Mark { .. } => self.pass(),
            Call::Reprice { .. } => self.pass(),
        }
    }

    // Reads a call for an account.
    fn read<T: Terms>(&mut self, terms: &T, account: u32, entry: Entry)
        requires { self.old.calls < 1000000000 }
        ensures calls { self.new.calls ≡ self.old.calls + 1 }
        ensures told { (start : ℕ) (h : History) → Told (T.meaning terms.now) start h account self.old → Told (T.meaning terms.now) start (entry ∷ h) account self.new }
    {
        match entry.answer {
            None => self.accept(terms, account, entry.call),
            Some(_) => self.pass(),
        }
    }
}

/// What a list of calls and answers, in their order, tells of an account of a book that was made in a month: none where
/// there are too many.
pub fn read_account<T: Terms>(
    terms: &T,
    month: u32,
    entries: &[Entry],
    account: u32,
) -> Option<Reading>
    ensures too_many { IfNone result (1000000000 < length entries.now) }
    ensures told { IfSome result (Told (T.meaning terms.now) month (reverse entries.now) account) }
{
    if entries.len() > MOST_CALLS {
        return None;
    }
    let mut reading = Reading::start(terms, month);
    for entry in entries {
        reading.read(terms, account, *entry);
    }
    Some(reading)
}
