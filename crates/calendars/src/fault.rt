// Why a list of closed days makes no calendar.
ghost use Rattle.std.specs.Prelude.{◌≡◌, Some};
ghost use Rattle.calendars.specs.Refusals.{list_number, list_reason};

use std::fmt;

#[derive(Clone, Copy, PartialEq, Eq, Debug)]
pub enum ListFault {
    TooMany,
    Unordered,
    LawBroken,
}

impl ListFault {
    // The number of the question that was answered no.
    pub fn number(self) -> u8
        ensures { result ≡ list_number self }
    {
        // A `match`: equal discriminants do not compile, and it is the contract that is to refuse two questions with one
        // number.
        match self {
            ListFault::TooMany => 4,
            ListFault::Unordered => 5,
            ListFault::LawBroken => 6,
        }
    }

    fn reason(self) -> &'static str
        ensures { result.now ≡ list_reason self }
    {
        match self {
            ListFault::TooMany => "the list has more than 2,000 days",
            ListFault::Unordered =>
                "the days do not rise strictly, or one lies outside 2000 to 2099",
            ListFault::LawBroken => "some month keeps fewer than four open days after its ninth",
        }
    }
}

impl fmt::Display for ListFault {
    ghost output = { λ f. Some (list_reason f) };

    fn fmt<W: fmt::Write>(&self, f: &mut fmt::Formatter<W>) -> fmt::Result {
        f.write_str(self.reason())
    }
}
