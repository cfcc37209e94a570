// The classes of durum wheat by their numbers: T01, T02, T03, T04, T05 and DEL.
ghost use Rattle.std.specs.Prelude.{◌≡◌, ◌<◌, ◌≤◌};
ghost use Rattle.std.specs.Option.{option_map};
ghost use Rattle.wheat.specs.Wheat.{wheat_chain, class_name};

use terms::{ClassRow, Period};

pub(crate) const CLASSES: u32 = 6;

pub(crate) const T01: u32 = 0;

const T02: u32 = 1;

const T03: u32 = 2;

const T04: u32 = 3;

pub(crate) const DEL: u32 = 5;

// The classes, by number. A class's place tells how many expiries it stands after the one before T01's. It is a
// static, so that a call reads its row where it lies.
static ROWS: [ClassRow; 6] = [
    ClassRow {
        name: "T01",
        period: Period::Month,
        place: 1,
        earlier: Some(DEL),
    },
    ClassRow {
        name: "T02",
        period: Period::Month,
        place: 2,
        earlier: Some(T01),
    },
    ClassRow {
        name: "T03",
        period: Period::Month,
        place: 3,
        earlier: Some(T02),
    },
    ClassRow {
        name: "T04",
        period: Period::Month,
        place: 4,
        earlier: Some(T03),
    },
    ClassRow {
        name: "T05",
        period: Period::Month,
        place: 5,
        earlier: Some(T04),
    },
    ClassRow {
        name: "DEL",
        period: Period::Month,
        place: 0,
        earlier: None,
    },
];

// The row of a class.
pub(crate) fn row(class: u32) -> ClassRow
    requires { class < 6 }
    ensures period { result.period ≡ Period.Month }
    ensures place { result.place ≡ wheat_chain.place class }
    ensures earlier { result.earlier ≡ wheat_chain.earlier class }
    ensures bound { result.place ≤ 5 }
{
    ROWS[class as usize]
}

// The name of a class.
pub fn class_name(class: u32) -> Option<&'static str>
    ensures { option_map (λ x. x.now) result ≡ class_name class }
{
    terms::class_name(&ROWS, class)
}
