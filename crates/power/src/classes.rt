// The classes of power by their numbers.
ghost use Rattle.std.specs.Prelude.{◌≡◌, ◌<◌, ◌≤◌};
ghost use Rattle.std.specs.Option.{option_map};
ghost use Rattle.power.specs.Classes.{length_of, place_of, earlier, class_name};
ghost use Rattle.terms.specs.Period.{months_in};

use terms::{ClassRow, Period};

pub(crate) const CLASSES: u32 = 11;

// The classes that the code names, by number. They are numbers and no enum, as in the interface of terms: a product brings
// its own.
pub(crate) const M01: u32 = 0;

const M02: u32 = 1;

pub(crate) const Q01: u32 = 3;

const Q02: u32 = 4;

const Q03: u32 = 5;

pub(crate) const Y01: u32 = 7;

pub(crate) const Y02: u32 = 8;

pub(crate) const D01: u32 = 9;

// The settling class.
pub(crate) const D02: u32 = 10;

// The classes, by number. Their places are among the periods of their length, counted from the period before the day's
// own, and each hands over to the class one place before, if it has one. It is a static, so that a call reads its row where
// it lies; of a const the whole table would be laid out in each call.
static ROWS: [ClassRow; 11] = [
    ClassRow {
        name: "M01",
        period: Period::Month,
        place: 2,
        earlier: Some(D01),
    },
    ClassRow {
        name: "M02",
        period: Period::Month,
        place: 3,
        earlier: Some(M01),
    },
    ClassRow {
        name: "M03",
        period: Period::Month,
        place: 4,
        earlier: Some(M02),
    },
    ClassRow {
        name: "Q01",
        period: Period::Quarter,
        place: 2,
        earlier: None,
    },
    ClassRow {
        name: "Q02",
        period: Period::Quarter,
        place: 3,
        earlier: Some(Q01),
    },
    ClassRow {
        name: "Q03",
        period: Period::Quarter,
        place: 4,
        earlier: Some(Q02),
    },
    ClassRow {
        name: "Q04",
        period: Period::Quarter,
        place: 5,
        earlier: Some(Q03),
    },
    ClassRow {
        name: "Y01",
        period: Period::Year,
        place: 2,
        earlier: None,
    },
    ClassRow {
        name: "Y02",
        period: Period::Year,
        place: 3,
        earlier: Some(Y01),
    },
    ClassRow {
        name: "D01",
        period: Period::Month,
        place: 1,
        earlier: Some(D02),
    },
    ClassRow {
        name: "D02",
        period: Period::Month,
        place: 0,
        earlier: None,
    },
];

// The row of a class.
pub(crate) fn row(class: u32) -> ClassRow
    requires { class < 11 }
    ensures period { months_in result.period ≡ length_of class }
    ensures place { result.place ≡ place_of class }
    ensures earlier { result.earlier ≡ earlier class }
    ensures bound { result.place ≤ 5 }
{
    ROWS[class as usize]
}

// The name of a class.
pub fn class_name(class: u32) -> Option<&'static str>
    ensures { option_map (λ x. x.now) result ≡ class_name class }
{
    terms::class_name(&ROWS, class)
}
