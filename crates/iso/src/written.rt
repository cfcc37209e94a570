// Days and months as programs read them: 2008-03-26 and 2008-03.
ghost use Rattle.std.specs.Prelude.{Some};
ghost use Rattle.iso.specs.Written.{two_digits, day_written, month_written};

use std::fmt;

// A number below 100 with two digits.
#[derive(Clone, Copy)]
struct TwoDigits {
    number: u32,
}

impl fmt::Display for TwoDigits {
    ghost output = { λ n. Some (two_digits n.number) };

    fn fmt<W: fmt::Write>(&self, f: &mut fmt::Formatter<W>) -> fmt::Result {
        write!(f, "{}{}", self.number / 10, self.number % 10)
    }
}

// A day, as in 2008-03-26.
#[derive(Clone, Copy)]
pub struct IsoDay {
    pub day: u32,
}

impl fmt::Display for IsoDay {
    ghost output = { λ d. Some (day_written d.day) };

    fn fmt<W: fmt::Write>(&self, f: &mut fmt::Formatter<W>) -> fmt::Result {
        let number = self.day;
        match dates::date_of(number) {
            Some(date) => {
                let year = date.year;
                let month = TwoDigits { number: date.month };
                let day = TwoDigits { number: date.day };
                write!(f, "{year}-{month}-{day}")
            }
            None => write!(f, "day {number}"),
        }
    }
}

// A month, as in 2008-03. Its number is wide enough for a month that so many others follow.
#[derive(Clone, Copy)]
pub struct IsoMonth {
    pub month: u64,
}

impl fmt::Display for IsoMonth {
    ghost output = { λ m. Some (month_written m.month) };

    fn fmt<W: fmt::Write>(&self, f: &mut fmt::Formatter<W>) -> fmt::Result {
        let year = 2000 + self.month / 12;
        let month = TwoDigits {
            number: (self.month % 12 + 1) as u32,
        };
        write!(f, "{year}-{month}")
    }
}
