// The questions of a sheet.
ghost use Rattle.std.specs.Prelude.{◌≡◌};
ghost use Rattle.rows.specs.Faults.{fault_number};

// A question of the sheet that was answered no.
#[derive(Clone, Copy, PartialEq, Eq, Debug)]
pub enum SheetFault {
    TooLong,
    ColumnNames,
    ValueCount,
    UnknownCall,
    FieldsFilled,
    NotANumber,
    UnknownClass,
}

impl SheetFault {
    // The number of the question. A `match`: it is the contract that is to refuse two questions with one number.
    pub fn number(self) -> u8
        ensures { result ≡ fault_number self }
    {
        match self {
            SheetFault::TooLong => 29,
            SheetFault::ColumnNames => 30,
            SheetFault::ValueCount => 31,
            SheetFault::UnknownCall => 32,
            SheetFault::FieldsFilled => 33,
            SheetFault::NotANumber => 34,
            SheetFault::UnknownClass => 35,
        }
    }
}
