// What may be wrong with the arguments.
ghost use Rattle.std.specs.Prelude.{◌≡◌, Some};
ghost use Rattle.setup.specs.Faults.{argument_fault_text};
ghost use Rattle.setup.specs.declared.fault.ArgumentFault.TheVariants.{NoMemory};

use std::alloc::{AllocError, AllocFailed};
use std::fmt;

// The first argument that is wrong.
#[derive(Clone, Copy, PartialEq, Eq, Debug)]
pub enum ArgumentFault {
    Product,
    Month,
    Accounts,
    Intervals,
    Followed,
    Count,
    NoMemory,
}

impl From<AllocError> for ArgumentFault {
    ghost from_gives = { λ _ r. r ≡ NoMemory };

    fn from(_e: AllocError) -> ArgumentFault {
        ArgumentFault::NoMemory
    }
}

impl<T: Drop> From<AllocFailed<T>> for ArgumentFault {
    ghost from_gives = { λ _ r. r ≡ NoMemory };

    fn from(_e: AllocFailed<T>) -> ArgumentFault {
        ArgumentFault::NoMemory
    }
}

impl fmt::Display for ArgumentFault {
    ghost output = { λ f. Some (argument_fault_text f) };

    fn fmt<W: fmt::Write>(&self, f: &mut fmt::Formatter<W>) -> fmt::Result {
        let text = match self {
            ArgumentFault::Product => "argument 1 is not baseload, peakload or wheat",
            ArgumentFault::Month => "argument 2 is no month of the form YYYY-MM from 2000 to 2099",
            ArgumentFault::Accounts => "argument 3 is no number of accounts",
            ArgumentFault::Intervals =>
                "argument 4 is no list of numbers up to 65535 with commas between them",
            ArgumentFault::Followed => "argument 6 is no account of the book",
            ArgumentFault::Count => "there are not five or six arguments",
            ArgumentFault::NoMemory => "there is no memory for the arguments",
        };
        f.write_str(text)
    }
}
