// The fields of a line of values, by column.
ghost use Rattle.std.specs.Prelude.{◌≡◌, ◌<◌, IfOk, ok_or};
ghost use Rattle.rows.specs.CallNames.{among, fits, just_filled};
ghost use Rattle.rows.specs.Requests.{number_in, price_in, class_in};
ghost use Rattle.rows.specs.Values.{value};

use crate::column::Column;
use crate::fault::SheetFault;
use crate::names::Names;
use crate::row::Row;
use products::Product;
use text::{digits, signed};

#[derive(Clone, Copy)]
pub(crate) struct Values<'a> {
    pub(crate) names: Names,
    pub(crate) row: Row<'a>,
}

// The columns whose fields a call may need.
const FILLABLE: [Column; 5] = [
    Column::Buyer,
    Column::Seller,
    Column::Class,
    Column::Lots,
    Column::Price,
];

// Whether a column is among those that are needed.
fn is_among(needed: &[Column], column: Column) -> bool
    ensures { result ≡ among needed.now column }
{
    needed.contains(&column)
}

impl<'a> Values<'a> {
    // The field of a column.
    pub(crate) fn field(&self, column: Column) -> &'a [u8]
        ensures { result.now ≡ value self.now column }
    {
        self.names.field(&self.row, column)
    }

    // Whether a field is filled where it is needed, and empty elsewhere.
    fn fits(&self, needed: &[Column], column: Column) -> bool
        ensures { result ≡ fits needed.now (value self.now) column }
    {
        is_among(needed, column) != self.field(column).is_empty()
    }

    // Whether just the fields of these columns are filled.
    pub(crate) fn has_just(&self, needed: &[Column]) -> bool
        ensures { result ≡ just_filled needed.now (value self.now) }
    {
        FILLABLE.iter().all(|&column| self.fits(needed, column))
    }

    // The number of a field without a minus.
    pub(crate) fn number(&self, column: Column) -> Result<u32, SheetFault>
        ensures number { result ≡ number_in (value self.now column) }
        ensures bound { IfOk result (λ n. n < 1000000000) }
    {
        digits(self.field(column)).ok_or(SheetFault::NotANumber)
    }

    // The price, which may have a minus.
    pub(crate) fn price(&self) -> Result<i32, SheetFault>
        ensures { result ≡ price_in (value self.now Column.Price) }
    {
        signed(self.field(Column::Price)).ok_or(SheetFault::NotANumber)
    }

    // The class, among those of the product.
    pub(crate) fn class(&self, product: Product) -> Result<u32, SheetFault>
        ensures { result ≡ class_in product (value self.now Column.Class) }
    {
        product
            .class_of(self.field(Column::Class))
            .ok_or(SheetFault::UnknownClass)
    }
}
