// Terms with the table of one of their days.
ghost use Rattle.std.specs.Prelude.{◌≡◌, ◌<◌};
ghost use Rattle.day_table.specs.Table.{classes_of, quantities_of, table_of};
ghost use Rattle.terms.specs.Heirs.{MonthsFollow};
ghost use Rattle.terms.specs.Meaning.{class_quantity};
ghost use Rattle.terms.specs.Quantities.{PartsAndSuccessors};

use crate::reading::{
    Classes, all_stay, next_of, quantities, quantity_at, same_months, some_parts, taken_over,
    tradables, wholes,
};
use crate::table::DayTable;
use std::array;
use terms::Terms;

// The table of a day whose classes and quantities are known.
fn table_with<T: Terms>(terms: &T, day: u32, table: Classes, quantity: [u32; 12]) -> DayTable
    requires table { table ≡ classes_of (T.meaning terms.now) day }
    requires quantity { quantity ≡ quantities_of (T.meaning terms.now) day }
    ensures { result ≡ table_of (T.meaning terms.now) day }
{
    let classes = terms.classes();
    let settling = terms.settling();
    let whole = wholes(&table);
    DayTable {
        day,
        classes,
        settling,
        tradable: tradables(&table),
        quantity,
        some_parts: some_parts(&whole, classes),
        all_stay: all_stay(&table, classes),
        taken_over: taken_over(&table, classes, settling),
        next: next_of(terms, day),
        whole,
        table,
    }
}

// The table of a day.
fn table_on<T: Terms>(terms: &T, day: u32) -> DayTable
    ensures { result ≡ table_of (T.meaning terms.now) day }
{
    let classes = terms.classes_on(day);
    table_with(terms, day, classes, quantities(terms, day, &classes))
}

/// Terms with the table of one of their days.
#[derive(Drop)]
pub struct DatedTerms<T: Terms> {
    terms: T,
    table: DayTable,
    ghost read: { table ≡ table_of (T.meaning terms) table.day },
}

impl<T: Terms> DatedTerms<T> {
    /// Terms on a day. For all terms, a class with parts has as much as its parts together, and a successor as much as the
    /// class that it succeeds.
    pub fn new(terms: T, day: u32) -> Self
        ensures terms { result.terms ≡ terms }
        ensures table { result.table ≡ table_of (T.meaning terms) day }
        ensures quantities { PartsAndSuccessors (T.meaning terms) }
    {
        let table = table_on(&terms, day);
        DatedTerms { terms, table }
    }

    pub fn terms(&self) -> &T
        ensures { result.now ≡ self.now.terms }
    {
        &self.terms
    }

    pub fn table(&self) -> &DayTable
        ensures { result.now ≡ self.now.table }
    {
        &self.table
    }

    /// The table of another day of the same terms.
    pub fn on(&self, day: u32) -> DayTable
        ensures { result ≡ table_of (T.meaning self.now.terms) day }
    {
        let classes = self.terms.classes_on(day);
        let quantity = self.quantities_on(day, &classes);
        table_with(&self.terms, day, classes, quantity)
    }

    /// Goes to another day of the same terms. For all terms, the class to which a month is handed over at the day's close has
    /// that month on the next open day, and a successor as much as the class that it succeeds: no month is lost.
    pub fn go_to(&mut self, day: u32)
        ensures terms { self.new.terms ≡ self.old.terms }
        ensures table { self.new.table ≡ table_of (T.meaning self.old.terms) day }
        ensures months { MonthsFollow (T.meaning self.old.terms) }
        ensures quantities { PartsAndSuccessors (T.meaning self.old.terms) }
    {
        self.table = self.on(day);
    }

    fn quantities_on(&self, day: u32, classes: &Classes) -> [u32; 12]
        requires { classes.now ≡ classes_of (T.meaning self.now.terms) day }
        ensures { result ≡ quantities_of (T.meaning self.now.terms) day }
    {
        array::from_fn(|class| self.quantity_on(day, classes, class))
    }

    // A class that has the same months has the same quantity.
    fn quantity_on(&self, day: u32, classes: &Classes, class: usize) -> u32
        requires known { classes.now ≡ classes_of (T.meaning self.now.terms) day }
        requires class { class < 12 }
        ensures { result ≡ class_quantity (T.meaning self.now.terms) ((T.meaning self.now.terms).on day class) }
    {
        if same_months(&self.table.table[class], &classes[class]) {
            self.table.quantity[class]
        } else {
            quantity_at(&self.terms, day, classes, class)
        }
    }
}
