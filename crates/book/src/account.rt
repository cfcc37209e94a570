// One account.
ghost use Rattle.std.specs.Prelude.{ℕ, ◌≤◌, unsigned_abs};
ghost use Rattle.ledger.specs.Words.{at};

use crate::arithmetic::{cost_of, is_within_limit, lots_with, more_cash, price_move, variation};
use crate::quotes::Quote;
use crate::rows::{add_cost, add_lots};
use day_table::DayTable;
use std::array;

/// One account, by class: its lots now, and the day's trades in lots and at cost (lots × price), a buy counting positive;
/// its cash in cents. It holds at most 1,000 lots of a class, long or short, and the day's trades are no more than 100,000
/// trades allow.
#[derive(Clone, Copy)]
pub(crate) struct Account {
    lots: [i32; 12],
    traded: [i32; 12],
    cost: [i64; 12],
    cash: i64,
    ghost within: { (c : ℕ) → unsigned_abs (at lots c) ≤ 1000 },
    ghost traded_small: { (c : ℕ) → unsigned_abs (at traded c) ≤ 100000000 },
    ghost cost_small: { (c : ℕ) → unsigned_abs (at cost c) ≤ 10000000000000 },
}

impl Default for Account {
    ghost use Rattle.std.specs.Prelude.{◌≡◌};
    ghost use Rattle.book.specs.Rows.{row_of};
    ghost use Rattle.ledger.specs.State.{nil_row};

    /// An account that holds nothing.
    fn default() -> Account
        ensures { row_of result ≡ nil_row }
    {
        Account {
            lots: [0; 12],
            traded: [0; 12],
            cost: [0; 12],
            cash: 0,
        }
    }
}

impl Account {
    ghost use Rattle.std.specs.Prelude.{◌≡◌, ℕ, ◌<◌, ◌≤◌, true, Some, pos, ◌+ℤ◌, ◌*ℤ◌, None, unsigned_abs, slice_index_or};
    ghost use Rattle.amounts.specs.SumsOfWhole.{sum_z, if_z};
    ghost use Rattle.amounts.specs.Amounts.{final_payment, part_payment};
    ghost use Rattle.book.specs.Quotes.{quote_at, quote_pay, SmallQuotes};
    ghost use Rattle.book.specs.Rows.{row_of, row_paid, row_credited, row_carried, parts_pay_at, Room, Flagged, SmallDay, SmallCents, Known};
    ghost use Rattle.day_table.specs.Table.{day_in};
    ghost use Rattle.ledger.specs.Calls.{lots_fit, row_traded, after_parts};
    ghost use Rattle.ledger.specs.Words.{all_below, from, at};

    /// The lots in a class.
    pub(crate) fn lots(&self, class: u32) -> i32
        requires { class < 12 }
        ensures is { result ≡ (row_of self.now).lots class }
        ensures bound { unsigned_abs result ≤ 1000 }
    {
        self.lots[class as usize]
    }

    /// The cash.
    pub(crate) fn cash(&self) -> i64
        ensures { result ≡ (row_of self.now).cash }
    {
        self.cash
    }

    /// Whether the account may take lots of a class; they are negative for a sale.
    pub(crate) fn may_take(&self, class: u32, lots: i32) -> bool
        requires { (class < 12) × (unsigned_abs lots ≤ 1000) }
        ensures { result ≡ lots_fit ((row_of self.now).lots class +ℤ lots) }
    {
        is_within_limit(lots_with(self.lots(class), lots))
    }

    // The day's trades in a class, in lots, with so many more.
    fn traded_with(&self, class: u32, lots: i32) -> i32
        requires { (class < 12) × (unsigned_abs lots ≤ 1000) }
        ensures { result ≡ (row_of self.now).traded class +ℤ lots }
    {
        self.traded[class as usize] + lots
    }

    /// Takes lots of a class at a price; they are negative for a sale.
    pub(crate) fn take(&mut self, class: u32, lots: i32, price: i32)
        requires known { class < 12 }
        requires small { (unsigned_abs lots ≤ 1000) × (unsigned_abs price ≤ 100000) }
        requires room { Room (row_of self.old) class lots price }
        ensures { row_of self.new ≡ row_traded class price lots (row_of self.old) }
    {
        let traded = self.traded_with(class, lots);
        let cost = cost_of(lots, price);
        add_lots(&mut self.lots, class, lots);
        self.traded[class as usize] = traded;
        add_cost(&mut self.cost, class, cost);
    }

    // The variation margin of a class.
    fn class_variation(&self, quotes: &[Quote; 12], class: usize) -> i64
        requires { (class < 12) × (SmallQuotes quotes.now) }
        ensures is { result ≡ quote_pay (quote_at quotes.now class) (row_of self.now) class }
        ensures bound { unsigned_abs result ≤ 178802682000000000 }
    {
        let Quote {
            quantity,
            today,
            last,
        } = quotes[class];
        let lots = self.lots[class];
        let traded = self.traded[class];
        variation(quantity, today, lots, last, traded, self.cost[class])
    }

    /// The variation margin of so many classes together.
    pub(crate) fn variation(&self, quotes: &[Quote; 12], classes: u32) -> i64
        requires { (classes ≤ 12) × (SmallQuotes quotes.now) }
        ensures is { result ≡ sum_z classes (λ c. quote_pay (quote_at quotes.now c) (row_of self.now) c) }
        ensures bound { unsigned_abs result ≤ 2145632184000000000 }
    {
        let mut sum = 0;
        for class in 0..classes as usize {
            sum += self.class_variation(quotes, class);
        }
        sum
    }

    // What the lots of a class are paid for one part, by the part's quantity.
    fn part_pay(&self, day: &DayTable, newest: &[i32; 12], class: usize, part: usize) -> i64
        requires known { (class < 12) × (part < 12) }
        requires small { (SmallDay day.now) × (SmallCents newest.now) }
        ensures is { result ≡ if_z ((day_in day.now).part class part) (part_payment ((day_in day.now).quantity part) ((row_of self.now).lots class) (at newest.now part) (at newest.now class)) }
        ensures bound { unsigned_abs result ≤ 1788000000000 }
    {
        if day.is_part(class, part) {
            price_move(
                day.quantity[part],
                self.lots[class],
                newest[part],
                newest[class],
            )
        } else {
            0
        }
    }

    // The same over the parts of a class.
    fn class_parts(&self, day: &DayTable, newest: &[i32; 12], class: usize) -> i64
        requires known { (class < 12) × (day.now.classes ≤ 12) }
        requires small { (SmallDay day.now) × (SmallCents newest.now) }
        ensures is { result ≡ sum_z day.now.classes (λ p. if_z ((day_in day.now).part class p) (part_payment ((day_in day.now).quantity p) ((row_of self.now).lots class) (at newest.now p) (at newest.now class))) }
        ensures bound { unsigned_abs result ≤ 21456000000000 }
    {
        let mut sum = 0;
        for part in 0..day.classes as usize {
            sum += self.part_pay(day, newest, class, part);
        }
        sum
    }

    /// What the lots are paid for the parts of their classes, where each class has so many cents as its newest price.
    pub(crate) fn parts_pay(&self, day: &DayTable, newest: &[i32; 12]) -> i64
        requires known { day.now.classes ≤ 12 }
        requires small { (SmallDay day.now) × (SmallCents newest.now) }
        ensures is { result ≡ parts_pay_at (day_in day.now) (at newest.now) (row_of self.now) }
        ensures bound { unsigned_abs result ≤ 257472000000000 }
    {
        let mut sum = 0;
        for class in 0..day.classes as usize {
            sum += self.class_parts(day, newest, class);
        }
        sum
    }

    // What a class gives one of its parts.
    fn gives(&self, day: &DayTable, part: usize, class: usize) -> i32
        requires { class < 12 }
        ensures is { result ≡ if_z ((day_in day.now).part class part) ((row_of self.now).lots class) }
        ensures bound { unsigned_abs result ≤ 1000 }
    {
        let given = self.lots[class];
        if day.is_part(class, part) { given } else { 0 }
    }

    // What a class gets of the classes of which it is a part.
    fn gets(&self, day: &DayTable, part: usize) -> i32
        requires { day.now.classes ≤ 12 }
        ensures is { result ≡ sum_z day.now.classes (λ e. if_z ((day_in day.now).part e part) ((row_of self.now).lots e)) }
        ensures bound { unsigned_abs result ≤ 12000 }
    {
        let mut sum = 0;
        for class in 0..day.classes as usize {
            sum += self.gives(day, part, class);
        }
        sum
    }

    // The lots of a class once each class with parts has given its own to each part and is emptied.
    fn after_parts(&self, day: &DayTable, class: usize) -> i32
        requires { (class < 12) × ((day.now.classes ≤ 12) × (Flagged day.now)) }
        ensures is { result ≡ after_parts (day_in day.now) (row_of self.now) class }
        ensures bound { unsigned_abs result ≤ 13000 }
    {
        if !day.some_parts {
            return self.lots[class];
        }
        if day.has_parts(class) {
            0
        } else {
            self.lots[class] + self.gets(day, class)
        }
    }

    // Whether a class stays within the limit after the parts.
    fn class_keeps(&self, day: &DayTable, class: usize) -> bool
        requires { (class < 12) × ((day.now.classes ≤ 12) × (Flagged day.now)) }
        ensures { result ≡ lots_fit (after_parts (day_in day.now) (row_of self.now) class) }
    {
        is_within_limit(self.after_parts(day, class))
    }

    /// Whether every class stays within the limit after the parts.
    pub(crate) fn keeps_limit(&self, day: &DayTable) -> bool
        requires { (day.now.classes ≤ 12) × (Flagged day.now) }
        ensures { result ≡ all_below day.now.classes (λ c. lots_fit (after_parts (day_in day.now) (row_of self.now) c)) }
    {
        (0..day.classes as usize).all(|class| self.class_keeps(day, class))
    }

    /// What the account is paid where its lots in a class are settled.
    pub(crate) fn settle_pay(&self, class: u32, quantity: u32, price: i32, last: i32) -> i64
        requires known { (class < 12) × (quantity ≤ 8940) }
        requires small { (unsigned_abs price ≤ 100000) × (unsigned_abs last ≤ 100000) }
        ensures is { result ≡ final_payment quantity ((row_of self.now).lots class) price last }
        ensures bound { unsigned_abs result ≤ 1788000000000 }
    {
        price_move(quantity, self.lots(class), price, last)
    }

    /// Is paid out in a class.
    pub(crate) fn settle(&mut self, class: u32, cents: i64)
        requires known { class < 12 }
        requires fits { unsigned_abs (self.old.cash +ℤ cents) ≤ 9000000000000000000 }
        ensures { row_of self.new ≡ row_paid class cents (row_of self.old) }
    {
        self.lots[class as usize] = 0;
        self.cash = more_cash(self.cash, cents);
    }

    /// Is paid by a close, after which no trades of the day are left.
    pub(crate) fn close(&mut self, cents: i64)
        requires { unsigned_abs (self.old.cash +ℤ cents) ≤ 9000000000000000000 }
        ensures { row_of self.new ≡ row_credited cents (row_of self.old) }
    {
        self.cash = more_cash(self.cash, cents);
        self.traded = [0; 12];
        self.cost = [0; 12];
    }

    // The lots of a class on the next open day: those of the class that it succeeds, or none.
    fn carried(&self, day: &DayTable, sources: &[Option<u32>; 12], class: usize) -> i32
        requires known { (class < 12) × (Known day.now.classes sources.now) }
        requires day { (day.now.classes ≤ 12) × (Flagged day.now) }
        requires keeps { all_below day.now.classes (λ c. lots_fit (after_parts (day_in day.now) (row_of self.now) c)) ≡ true }
        ensures is { result ≡ from (slice_index_or sources.now class None) (pos 0) (after_parts (day_in day.now) (row_of self.now)) }
        ensures bound { unsigned_abs result ≤ 1000 }
    {
        match sources[class] {
            Some(source) => self.after_parts(day, source as usize),
            None => 0,
        }
    }

    // The lots of all classes on the next open day.
    fn carried_lots(&self, day: &DayTable, sources: &[Option<u32>; 12]) -> [i32; 12]
        requires known { Known day.now.classes sources.now }
        requires day { (day.now.classes ≤ 12) × (Flagged day.now) }
        requires keeps { all_below day.now.classes (λ c. lots_fit (after_parts (day_in day.now) (row_of self.now) c)) ≡ true }
        ensures is { (t : ℕ) → at result t ≡ from (slice_index_or sources.now t None) (pos 0) (after_parts (day_in day.now) (row_of self.now)) }
        ensures bound { (t : ℕ) → unsigned_abs (at result t) ≤ 1000 }
    {
        array::from_fn(|class| self.carried(day, sources, class))
    }

    /// Its lots go on to the next open day: to their parts, and then to the classes that succeed.
    pub(crate) fn carry(&mut self, day: &DayTable, sources: &[Option<u32>; 12])
        requires known { Known day.now.classes sources.now }
        requires day { (day.now.classes ≤ 12) × (Flagged day.now) }
        requires keeps { all_below day.now.classes (λ c. lots_fit (after_parts (day_in day.now) (row_of self.old) c)) ≡ true }
        ensures { row_of self.new ≡ row_carried (day_in day.now) (λ t. slice_index_or sources.now t None) (row_of self.old) }
    {
        self.lots = self.carried_lots(day, sources);
    }
}
