// One row of a product's table of classes.
ghost use Rattle.std.specs.Prelude.{◌≡◌};
ghost use Rattle.std.specs.List.{slice_get};
ghost use Rattle.std.specs.Option.{option_map};
ghost use Rattle.terms.specs.Period.{months_in};

// How long a class's period is.
#[derive(Clone, Copy, PartialEq, Eq, Debug)]
pub enum Period {
    Month,
    Quarter,
    Year,
}

impl Period {
    pub fn months(self) -> u32
        ensures { result ≡ months_in self }
    {
        match self {
            Period::Month => 1,
            Period::Quarter => 3,
            Period::Year => 12,
        }
    }
}

// What a table tells of a class: its name, its period, its place in its chain, and the class one place before. A chain is
// the classes of one period length that hand over to one another.
#[derive(Clone, Copy, PartialEq, Eq, Debug)]
pub struct ClassRow {
    pub name: &'static str,
    pub period: Period,
    pub place: u32,
    pub earlier: Option<u32>,
}

// The name of a class, by its number, in a table that has a row for each class.
pub fn class_name(rows: &[ClassRow], class: u32) -> Option<&'static str>
    ensures { option_map (λ n. n.now) result ≡ option_map (λ r. r.name.now) (slice_get rows.now class) }
{
    rows.get(class as usize).map(|row| row.name)
}
