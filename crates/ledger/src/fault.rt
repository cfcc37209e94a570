// The questions that a book may answer no.
ghost use Rattle.std.specs.Prelude.{◌≡◌};
ghost use Rattle.ledger.specs.Faults.{fault_number};

// The first question of a call that was answered no.
#[derive(Clone, Copy, PartialEq, Eq, Debug)]
pub enum Fault {
    AccountCount,
    StartMonth,
    ClassLines,
    UnknownAccount,
    SameAccount,
    NotTradable,
    LotsOutOfRange,
    PriceOutOfRange,
    TooManyTrades,
    HoldingOutOfRange,
    NotRepriceable,
    ListTooShort,
    NothingToSettle,
    CashOutOfRange,
    ClassUnpriced,
    SettlingUnsettled,
    PartsOutOfRange,
    NoDayLeft,
    HeldUnpriced,
    UnknownClass,
}

impl Fault {
    // The number of the question. A `match`: equal discriminants do not compile, and it is the contract that is to refuse
    // two questions with one number.
    pub fn number(self) -> u8
        ensures { result ≡ fault_number self }
    {
        match self {
            Fault::AccountCount => 1,
            Fault::StartMonth => 2,
            Fault::ClassLines => 3,
            Fault::UnknownAccount => 7,
            Fault::SameAccount => 8,
            Fault::NotTradable => 9,
            Fault::LotsOutOfRange => 10,
            Fault::PriceOutOfRange => 11,
            Fault::TooManyTrades => 12,
            Fault::HoldingOutOfRange => 13,
            Fault::NotRepriceable => 14,
            Fault::ListTooShort => 15,
            Fault::NothingToSettle => 16,
            Fault::CashOutOfRange => 17,
            Fault::ClassUnpriced => 18,
            Fault::SettlingUnsettled => 19,
            Fault::PartsOutOfRange => 20,
            Fault::NoDayLeft => 21,
            Fault::HeldUnpriced => 22,
            Fault::UnknownClass => 23,
        }
    }
}
