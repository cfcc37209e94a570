// The days of the week. Day 0 is a Saturday.
ghost use Rattle.std.specs.Prelude.{◌≡◌, Some};
ghost use Rattle.dates.specs.Dates.{is_weekday};
ghost use Rattle.dates.specs.Weekdays.{weekday_of, weekday_name};

use std::fmt;

#[derive(Clone, Copy, PartialEq, Eq, Debug)]
pub enum Weekday {
    Saturday,
    Sunday,
    Monday,
    Tuesday,
    Wednesday,
    Thursday,
    Friday,
}

const WEEK: [Weekday; 7] = [
    Weekday::Saturday,
    Weekday::Sunday,
    Weekday::Monday,
    Weekday::Tuesday,
    Weekday::Wednesday,
    Weekday::Thursday,
    Weekday::Friday,
];

// The day of the week of a day.
pub fn weekday_of(day: u32) -> Weekday
    ensures { result ≡ weekday_of day }
{
    WEEK[(day % 7) as usize]
}

// Whether a day is one of Monday to Friday.
pub fn is_weekday(day: u32) -> bool
    ensures { result ≡ is_weekday day }
{
    day % 7 >= 2
}

impl Weekday {
    // A `match`: of the name that a derive prints no clause knows the bytes.
    fn name(self) -> &'static str
        ensures { result.now ≡ weekday_name self }
    {
        match self {
            Weekday::Saturday => "Saturday",
            Weekday::Sunday => "Sunday",
            Weekday::Monday => "Monday",
            Weekday::Tuesday => "Tuesday",
            Weekday::Wednesday => "Wednesday",
            Weekday::Thursday => "Thursday",
            Weekday::Friday => "Friday",
        }
    }
}

impl fmt::Display for Weekday {
    ghost output = { λ w. Some (weekday_name w) };

    fn fmt<W: fmt::Write>(&self, f: &mut fmt::Formatter<W>) -> fmt::Result {
        f.write_str(self.name())
    }
}
