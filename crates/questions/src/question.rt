// The questions in words.
ghost use Rattle.std.specs.Prelude.{◌≡◌, Some};
ghost use Rattle.questions.specs.Questions.{book_question, sheet_question, question, layer_name, refusal_text};

use ledger::Fault;
use rows::SheetFault;
use sheet::{Cause, Layer};
use std::fmt;

// A cause as people read it: who refuses, and by which question.
#[derive(Clone, Copy, PartialEq, Eq, Debug)]
pub struct Refusal {
    pub cause: Cause,
}

fn book_question(fault: Fault) -> &'static str
    ensures { result.now ≡ book_question fault }
{
    match fault {
        Fault::AccountCount => "are there 2 to 32 accounts?",
        Fault::StartMonth => "does the start month lie in 2001 to 2096?",
        Fault::ClassLines => "has each class one interval, from 0 to 10,000?",
        Fault::UnknownAccount => "is every account one of the book's?",
        Fault::SameAccount => "are buyer and seller two different accounts?",
        Fault::NotTradable => "is the class tradable?",
        Fault::LotsOutOfRange => "are there 1 to 1,000 lots?",
        Fault::PriceOutOfRange => "does the price lie in -100,000 to 100,000?",
        Fault::TooManyTrades => "have fewer than 100,000 trades been accepted?",
        Fault::HoldingOutOfRange => "do both accounts then hold at most 1,000 lots in the class?",
        Fault::NotRepriceable => "is the class one that cannot be traded, with a last price?",
        Fault::ListTooShort => "has the payment list a line for each account?",
        Fault::NothingToSettle => "has the settling class a last price?",
        Fault::CashOutOfRange => "does all cash then lie within 9 x 10^18 cents?",
        Fault::ClassUnpriced => "has every tradable class a price of the day?",
        Fault::SettlingUnsettled =>
            "is the settling class, to which another class succeeds, settled?",
        Fault::PartsOutOfRange =>
            "does each account then hold at most 1,000 lots in each class, the parts added?",
        Fault::NoDayLeft => "is there a next open day by 31 December 2096?",
        Fault::HeldUnpriced => "has every class held a last price?",
        Fault::UnknownClass => "is the class one of the terms?",
    }
}

fn sheet_question(fault: SheetFault) -> &'static str
    ensures { result.now ≡ sheet_question fault }
{
    match fault {
        SheetFault::TooLong => "is the sheet at most 65,536 bytes long?",
        SheetFault::ColumnNames => "does the names line have each of the six names once?",
        SheetFault::ValueCount => "are there six values?",
        SheetFault::UnknownCall => "is it one of the calls?",
        SheetFault::FieldsFilled => "are just the fields filled that the call needs?",
        SheetFault::NotANumber =>
            "has each number 1 to 9 digits, with a minus at most before a price?",
        SheetFault::UnknownClass => "is it a class of the product?",
    }
}

impl Refusal {
    fn question(self) -> &'static str
        ensures { result.now ≡ question self.cause }
    {
        match self.cause {
            Cause::Sheet(fault) => sheet_question(fault),
            Cause::Book(fault) => book_question(fault),
        }
    }

    fn layer(self) -> &'static str
        ensures { result.now ≡ layer_name self.cause }
    {
        match self.cause.layer() {
            Layer::Sheet => "sheet",
            Layer::Book => "book",
        }
    }
}

impl fmt::Display for Refusal {
    ghost output = { λ refusal. Some (refusal_text refusal.cause) };

    #[tactic(auto, unfolding(crate::specs::Questions::refusal_text))]
    fn fmt<W: fmt::Write>(&self, f: &mut fmt::Formatter<W>) -> fmt::Result {
        let layer = self.layer();
        let number = self.cause.number();
        let question = self.question();
        write!(f, "refused by the {layer}, question {number}: {question}")
    }
}
