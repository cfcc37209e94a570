// Why a line is refused.
ghost use Rattle.std.specs.Prelude.{◌≡◌};
ghost use Rattle.sheet.specs.Causes.{cause_number, cause_layer};
ghost use Rattle.sheet.specs.declared.cause.Cause.TheVariants.{Sheet, Book};

use ledger::Fault;
use rows::SheetFault;

/// The layer whose question was answered no.
#[derive(Clone, Copy, PartialEq, Eq, Debug)]
pub enum Layer {
    Sheet,
    Book,
}

/// A fault of the sheet, or one of the book, which is carried whole.
#[derive(Clone, Copy, PartialEq, Eq, Debug)]
pub enum Cause {
    Sheet(SheetFault),
    Book(Fault),
}

impl From<SheetFault> for Cause {
    ghost from_gives = { λ fault r. r ≡ Sheet fault };

    fn from(fault: SheetFault) -> Cause {
        Cause::Sheet(fault)
    }
}

impl From<Fault> for Cause {
    ghost from_gives = { λ fault r. r ≡ Book fault };

    fn from(fault: Fault) -> Cause {
        Cause::Book(fault)
    }
}

/// A fault keeps its number and its layer, which are those of its cause, and its line.
#[derive(Clone, Copy, PartialEq, Eq, Debug)]
pub struct LineFault {
    pub line: usize,
    pub cause: Cause,
}

impl Cause {
    /// The fault of a line.
    pub fn at(self, line: usize) -> LineFault
        ensures { result ≡ record { line = line; cause = self } }
    {
        LineFault { line, cause: self }
    }

    /// The number of the question.
    pub fn number(self) -> u8
        ensures { result ≡ cause_number self }
    {
        match self {
            Cause::Sheet(fault) => fault.number(),
            Cause::Book(fault) => fault.number(),
        }
    }

    /// The layer whose question it is.
    pub fn layer(self) -> Layer
        ensures { result ≡ cause_layer self }
    {
        match self {
            Cause::Sheet(_) => Layer::Sheet,
            Cause::Book(_) => Layer::Book,
        }
    }
}
