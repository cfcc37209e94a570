// One line of the answers.
ghost use Rattle.std.specs.Prelude.{◌≡◌, Some};
ghost use Rattle.sheet.specs.Answers.{answer_text, refused, accepted};

use crate::cause::LineFault;
use ledger::Payment;
use std::fmt;

/// The number of the line that is answered, the number of the question answered no, or 0, and an account with its cents,
/// where the answer tells one.
#[derive(Clone, Copy, PartialEq, Eq, Debug)]
pub struct Answer {
    pub line: usize,
    pub refusal: u8,
    pub amount: Option<Payment>,
}

impl Answer {
    /// The answer to a line that is refused.
    pub fn refused(fault: LineFault) -> Answer
        ensures { result ≡ refused fault }
    {
        Answer {
            line: fault.line,
            refusal: fault.cause.number(),
            amount: None,
        }
    }

    /// The answer to a line that is accepted.
    pub fn accepted(line: usize, amount: Option<Payment>) -> Answer
        ensures { result ≡ accepted line amount }
    {
        Answer {
            line,
            refusal: 0,
            amount,
        }
    }
}

impl fmt::Display for Answer {
    ghost output = { λ answer. Some (answer_text answer) };

    fn fmt<W: fmt::Write>(&self, f: &mut fmt::Formatter<W>) -> fmt::Result {
        let Answer {
            line,
            refusal,
            amount,
        } = *self;
        match amount {
            Some(Payment { account, cents }) => write!(f, "{line},{refusal},{account},{cents}"),
            None => write!(f, "{line},{refusal},,"),
        }
    }
}
