// The names line of a sheet: in which place each column stands.
ghost use Rattle.std.specs.Prelude.{◌≡◌, ◌<◌, ℕ, slice_index};

use crate::column::Column;
use crate::fault::SheetFault;
use crate::row::Row;

#[derive(Clone, Copy, PartialEq, Eq, Debug)]
pub struct Names {
    places: [usize; 6],
    ghost known: { (k : ℕ) → slice_index places k < 6 },
}

impl Names {
    ghost use Rattle.std.specs.Prelude.{true, false, Ok, Err, IfOk, MatchOption, MatchResult, map};
    ghost use Rattle.rows.specs.Columns.{names_fit, places_of, names_of, field_in, HoldsItsName};
    ghost use Rattle.rows.specs.Fields.{fields};

    // Where the columns stand in a line, if it is a names line.
    fn among(line: &[u8]) -> Option<Names>
        ensures { MatchOption result (names_fit line.now ≡ false) (λ n. (names_fit line.now ≡ true) × (n.places ≡ places_of line.now)) }
    {
        let row = Row::of(line)?;
        let call = row.place_of(Column::Call)?;
        let buyer = row.place_of(Column::Buyer)?;
        let seller = row.place_of(Column::Seller)?;
        let class = row.place_of(Column::Class)?;
        let lots = row.place_of(Column::Lots)?;
        let price = row.place_of(Column::Price)?;
        let places = [call, buyer, seller, class, lots, price];
        Some(Names { places })
    }

    // The places that a names line gives the columns.
    pub fn of(line: &[u8]) -> Result<Names, SheetFault>
        ensures places { MatchResult result (λ n. names_of line.now ≡ Ok n.places) (λ fault. names_of line.now ≡ Err fault) }
        ensures named { IfOk result (λ n. HoldsItsName n.places (fields line.now)) }
    {
        Names::among(line).ok_or(SheetFault::ColumnNames)
    }

    // The field of a column in a row.
    pub(crate) fn field<'a>(&self, row: &Row<'a>, column: Column) -> &'a [u8]
        ensures { result.now ≡ field_in self.now.places (map (λ f. f.now) row.now.fields) column }
    {
        row.at(self.places[column.place()])
    }
}
