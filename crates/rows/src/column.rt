// The columns of a sheet.
ghost use Rattle.std.specs.Prelude.{◌≡◌, ◌<◌, slice_index_or, []};
ghost use Rattle.rows.specs.Columns.{column_place, column_name};

#[derive(Clone, Copy, PartialEq, Eq, Debug)]
pub enum Column {
    Call,
    Buyer,
    Seller,
    Class,
    Lots,
    Price,
}

const NAMES: [&str; 6] = ["call", "buyer", "seller", "class", "lots", "price"];

impl Column {
    // The column's place among the columns.
    pub(crate) fn place(self) -> usize
        ensures place { result ≡ column_place self }
        ensures bound { result < 6 }
    {
        self as usize
    }

    // The column's name.
    pub fn name(self) -> &'static str
        ensures { result.now ≡ column_name self }
    {
        NAMES[self.place()]
    }
}
