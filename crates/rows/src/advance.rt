// A line that advances over days.
ghost use Rattle.std.specs.Prelude.{◌≡◌};
ghost use Rattle.rows.specs.Advances.{advance, advance_asked};
ghost use Rattle.rows.specs.Values.{value};

use crate::column::Column;
use crate::fault::SheetFault;
use crate::names::Names;
use crate::row::Row;
use crate::values::Values;

// Over so many days, at this price where one is wanted.
#[derive(Clone, Copy, PartialEq, Eq, Debug)]
pub struct Advance {
    pub days: u32,
    pub price: i32,
}

impl Values<'_> {
    // How many days, and the price.
    fn advance(&self) -> Result<Advance, SheetFault>
        ensures { result ≡ advance_asked (value self.now) }
    {
        if !self.has_just(&[Column::Lots, Column::Price]) {
            return Err(SheetFault::FieldsFilled);
        }
        let days = self.number(Column::Lots)?;
        let price = self.price()?;
        Ok(Advance { days, price })
    }
}

impl Names {
    // What a line asks that advances over days; none where it is another line.
    #[tactic(auto, unfolding(crate::specs::Advances::advance))]
    pub fn advance(&self, line: &[u8]) -> Option<Result<Advance, SheetFault>>
        ensures { result ≡ advance self.now.places line.now }
    {
        let row = Row::of(line)?;
        let values = Values { names: *self, row };
        if values.field(Column::Call) != b"advance".as_slice() {
            return None;
        }
        Some(values.advance())
    }
}
