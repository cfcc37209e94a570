// What is told of one call, written behind what was told before.
ghost use Rattle.std.specs.Prelude.{◌≡◌, ◌++◌, List, Ok, Result, IfOk, Some, string_bytes};
ghost use Rattle.ledger.specs.declared.payment.Payment.{Payment as Paid};
ghost use Rattle.life.specs.Told.{opening, refusal_told, payer, payment_told, margins_told, amount_told, reply_told};
ghost use Rattle.sheet.specs.Replies.{Tells};
ghost use Rattle.sheet.specs.declared.cause.Cause.{Cause as Why};
ghost use Rattle.std.specs.List.{flat_map};

use iso::IsoDay;
use ledger::{Call, Payment};
use questions::Refusal;
use rows::{Request, SheetFault};
use sheet::Cause;
use std::alloc::AllocError;
use std::fmt;

// Where and when a call was made: the line of the sheet, and the day of the book.
#[derive(Clone, Copy)]
pub(crate) struct Opening {
    pub(crate) line: usize,
    pub(crate) day: u32,
}

impl fmt::Display for Opening {
    ghost output = { λ o. Some (opening o.line o.day) };

    fn fmt<W: fmt::Write>(&self, f: &mut fmt::Formatter<W>) -> fmt::Result {
        let line = self.line;
        let day = IsoDay { day: self.day };
        write!(f, "line {line}, {day}: ")
    }
}

// What pays an account.
fn payer(call: Call) -> &'static str
    ensures { result.now ≡ payer call }
{
    match call {
        Call::Trade { .. } => "the trade",
        Call::Mark { .. } => "the mark",
        Call::Reprice { .. } => "the reprice",
        Call::Settle { .. } => "the final settlement",
        Call::Close { .. } => "the close",
    }
}

impl Opening {
    pub(crate) fn tell_refusal(self, text: &mut String, cause: Cause) -> Result<(), AllocError>
        ensures { IfOk result (λ u. string_bytes text.new ≡ string_bytes text.old ++ refusal_told self.line self.day cause) }
    {
        let refusal = Refusal { cause };
        writeln!(text, "{self}{refusal}")
    }

    fn tell_payment(self, text: &mut String, call: Call, payment: Payment) -> Result<(), AllocError>
        ensures { IfOk result (λ u. string_bytes text.new ≡ string_bytes text.old ++ payment_told self.line self.day call payment) }
    {
        let Payment { account, cents } = payment;
        if cents == 0 {
            return Ok(());
        }
        let by = payer(call);
        writeln!(
            text,
            "{self}account {account} is paid {cents} cents by {by}"
        )
    }

    fn tell_margins(self, text: &mut String, margins: Payment) -> Result<(), AllocError>
        ensures { IfOk result (λ u. string_bytes text.new ≡ string_bytes text.old ++ margins_told self.line self.day margins) }
    {
        let Payment { account, cents } = margins;
        writeln!(text, "{self}account {account} has margins of {cents} cents")
    }

    fn tell_amount(
        self,
        text: &mut String,
        request: Request,
        amount: Payment,
    ) -> Result<(), AllocError>
        ensures { IfOk result (λ u. string_bytes text.new ≡ string_bytes text.old ++ amount_told self.line self.day request amount) }
    {
        match request {
            Request::Book(call) => self.tell_payment(text, call, amount),
            Request::Margins { .. } => self.tell_margins(text, amount),
        }
    }

    fn tell_amounts(
        self,
        text: &mut String,
        request: Request,
        amounts: &[Payment],
    ) -> Result<(), AllocError>
        ensures { IfOk result (λ u. string_bytes text.new ≡ string_bytes text.old ++ flat_map (amount_told self.line self.day request) amounts.now) }
    {
        for amount in amounts {
            self.tell_amount(text, request, *amount)?;
        }
        Ok(())
    }

    // What an accepted line is told.
    fn tell_accepted(
        self,
        text: &mut String,
        asked: Result<Request, SheetFault>,
        amounts: &[Payment],
    ) -> Result<(), AllocError>
        ensures { IfOk result (λ u. string_bytes text.new ≡ string_bytes text.old ++ reply_told self.line self.day asked (Ok amounts.now)) }
    {
        match asked {
            Ok(request) => self.tell_amounts(text, request, amounts),
            Err(_) => Ok(()),
        }
    }

    // A reply: a fault, or how many payments at the head of the list are told.
    pub(crate) fn tell_reply(
        self,
        text: &mut String,
        asked: Result<Request, SheetFault>,
        reply: Result<usize, Cause>,
        list: &[Payment; 32],
    ) -> Result<(), AllocError>
        ensures { (told : Result (List Paid) Why) → Tells told reply list.now → IfOk result (λ u. string_bytes text.new ≡ string_bytes text.old ++ reply_told self.line self.day asked told) }
    {
        match reply {
            Ok(count) => self.tell_accepted(text, asked, &list[..count.min(32)]),
            Err(cause) => self.tell_refusal(text, cause),
        }
    }
}
