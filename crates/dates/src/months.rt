// The months of days, and the days of months. Months are counted from 0, January 2000, to 1,199.
ghost use Rattle.std.specs.Prelude.{◌≡◌, ℕ, ◌+◌, ◌*◌, ◌/◌, ◌%◌, ◌<◌, ◌≤◌, MatchOption};
ghost use Rattle.dates.specs.Dates.{days_in, start, month_of, month_of_day, first_day, month_length, InMonth, DaysAndMonths};

// How many days there are, from 1 January 2000 to 31 December 2099, and in how many months.
pub const DAY_COUNT: u32 = 36_525;

pub const MONTH_COUNT: u32 = 1200;

// The days of each month of a common year.
const LENGTHS: [u32; 12] = [31, 28, 31, 30, 31, 30, 31, 31, 30, 31, 30, 31];

// The months and the days of four years, of which the first is a leap year.
const CYCLE_MONTHS: u32 = 48;

const CYCLE_DAYS: u32 = 1461;

// The days of a cycle before each of its months, and before the next cycle.
const CYCLE_STARTS: [u32; 49] = [
    0, 31, 60, 91, 121, 152, 182, 213, 244, 274, 305, 335, 366, 397, 425, 456, 486, 517, 547, 578,
    609, 639, 670, 700, 731, 762, 790, 821, 851, 882, 912, 943, 974, 1004, 1035, 1065, 1096, 1127,
    1155, 1186, 1216, 1247, 1277, 1308, 1339, 1369, 1400, 1430, 1461,
];

fn cycle_start(place: u32) -> u32
    requires { place < 49 }
    ensures { result ≡ start place }
{
    CYCLE_STARTS[place as usize]
}

// The place in its cycle of the month of the cycle's given day.
fn cycle_month(day: u32) -> u32
    requires { day < 1461 }
    ensures { (InMonth day result) × (result < 48) }
{
    let least = day / 31;
    if cycle_start(least + 1) <= day {
        least + 1
    } else {
        least
    }
}

// The month of a day of the range.
fn month_in_range(day: u32) -> u32
    requires { day < 36525 }
    ensures is { result ≡ month_of day }
    ensures inside { InMonth day result × (result < 1200) }
    ensures law { DaysAndMonths }
{
    CYCLE_MONTHS * (day / CYCLE_DAYS) + cycle_month(day % CYCLE_DAYS)
}

// The month of a day.
pub fn month_of(day: u32) -> Option<u32>
    ensures is { result ≡ month_of_day day }
    ensures inside { MatchOption result (36525 ≤ day) (λ m. InMonth day m × (m < 1200)) }
    ensures law { DaysAndMonths }
{
    (day < DAY_COUNT).then(|| month_in_range(day))
}

// How many days of the range come before a month.
fn days_before(month: u32) -> u32
    requires { month < 1200 }
    ensures is { result ≡ start month }
    ensures inside { result + days_in month ≤ 36525 }
{
    CYCLE_DAYS * (month / CYCLE_MONTHS) + cycle_start(month % CYCLE_MONTHS)
}

// The first day of a month.
pub fn first_day(month: u32) -> Option<u32>
    ensures is { result ≡ first_day month }
    ensures inside { MatchOption result (1200 ≤ month) (λ d. d + days_in month ≤ 36525) }
{
    (month < MONTH_COUNT).then(|| days_before(month))
}

// How many days a month has.
pub fn month_length(month: u32) -> Option<u32>
    ensures is { result ≡ month_length month }
    ensures bound { MatchOption result (1200 ≤ month) (λ n. (28 ≤ n) × (n ≤ 31)) }
{
    if month >= MONTH_COUNT {
        return None;
    }
    let days = LENGTHS[(month % 12) as usize];
    Some(days + u32::from(month % CYCLE_MONTHS == 1))
}
