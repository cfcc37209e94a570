// A book at which the lines of a sheet are called, and the replies to them.
ghost use Rattle.std.specs.Prelude.{◌≡◌, ◌≤◌, List, [], ◌∷◌, length, take, Option, Ok, IfOk, IfErr, MatchResult};
ghost use Rattle.ledger.specs.Words.{reply as reply_of_book};
ghost use Rattle.ledger.specs.declared.fault.Fault.{Fault as BookFault};
ghost use Rattle.ledger.specs.declared.payment.Payment.{Payment as Paid};
ghost use Rattle.rows.specs.declared.request.Request.TheVariants.{Book as OfBook, Margins as OfMargins};
ghost use Rattle.sheet.specs.Desks.{terms_at, meaning_at, state_at, entries_at, room_at, reply_at, state_left, entries_left};
ghost use Rattle.sheet.specs.Replies.{amounts, told, Tells};

use crate::cause::Cause;
use journal::Journal;
use ledger::{Call, Fault, Payment};
use rows::{Request, SheetFault};
use std::alloc::AllocError;
use terms::Terms;

/// A journal, and the payment list that is lent to its calls. What a reply tells in amounts stands at the head of the list.
#[derive(Drop)]
pub struct Desk<T: Terms> {
    pub journal: Journal<T>,
    pub list: [Payment; 32],
}

const NO_PAYMENT: Payment = Payment {
    account: 0,
    cents: 0,
};

// So many amounts are told, unless the book refuses.
fn told(answer: Result<(), Fault>, count: usize) -> Result<usize, Cause>
    ensures { (refusal : Option BookFault) (paid : List Paid) → answer ≡ reply_of_book refusal tt → MatchResult result (λ n. (told refusal paid ≡ Ok paid) × (n ≡ count)) (λ cause. told refusal paid ≡ Err cause) }
{
    answer?;
    Ok(count)
}

// One payment at the head of the list.
fn put_first(list: &mut [Payment; 32], payment: Payment)
    ensures { take 1 list.new ≡ payment ∷ [] }
{
    list[0] = payment;
}

impl<T: Terms> Desk<T> {
    /// The desk of a journal's book.
    pub fn new(journal: Journal<T>) -> Desk<T>
    where
        T: Drop,
        ensures { result.journal ≡ journal }
    {
        Desk {
            journal,
            list: [NO_PAYMENT; 32],
        }
    }

    // How many amounts are told where a call is accepted.
    fn count(&self, call: Call) -> usize
        ensures { result ≡ length (amounts (meaning_at self.now) (state_at self.now) call) }
    {
        match call {
            Call::Settle { .. } => self.journal.book().accounts() as usize,
            Call::Close { .. } => self.journal.book().accounts() as usize,
            _ => 0,
        }
    }

    // A call of the book.
    fn call(&mut self, call: Call) -> Result<Result<usize, Cause>, AllocError>
        ensures told { IfOk result (λ r. Tells (reply_at self.old (Ok (OfBook call))) r self.new.list) }
        ensures state { IfOk result (λ r. state_at self.new ≡ state_left self.old (Ok (OfBook call))) }
        ensures entries { IfOk result (λ r. entries_at self.new ≡ entries_left self.old (Ok (OfBook call))) }
        ensures full { IfErr result (λ e. room_at self.old ≤ length (entries_at self.old)) }
        ensures state_kept { IfErr result (λ e. state_at self.new ≡ state_at self.old) }
        ensures entries_kept { IfErr result (λ e. entries_at self.new ≡ entries_at self.old) }
        ensures terms { terms_at self.new ≡ terms_at self.old }
    {
        let count = self.count(call);
        let answer = self.journal.call(call, &mut self.list)?;
        Ok(told(answer, count))
    }

    // The margins of an account.
    fn margins(&mut self, account: u32) -> Result<usize, Cause>
        ensures told { Tells (reply_at self.old (Ok (OfMargins account))) result self.new.list }
        ensures same { self.new.journal ≡ self.old.journal }
    {
        let cents = self.journal.book().margins(account)?;
        put_first(&mut self.list, Payment { account, cents });
        Ok(1)
    }

    /// What a line of values asks, or why it is refused by the sheet. The reply is a fault, or how many payments at the head
    /// of the list are told. Where there is no memory for the note of a call, nothing is done; never while
    /// the journal has room.
    pub fn reply(
        &mut self,
        asked: Result<Request, SheetFault>,
    ) -> Result<Result<usize, Cause>, AllocError>
        ensures told { IfOk result (λ r. Tells (reply_at self.old asked) r self.new.list) }
        ensures state { IfOk result (λ r. state_at self.new ≡ state_left self.old asked) }
        ensures entries { IfOk result (λ r. entries_at self.new ≡ entries_left self.old asked) }
        ensures full { IfErr result (λ e. room_at self.old ≤ length (entries_at self.old)) }
        ensures state_kept { IfErr result (λ e. state_at self.new ≡ state_at self.old) }
        ensures entries_kept { IfErr result (λ e. entries_at self.new ≡ entries_at self.old) }
        ensures terms { terms_at self.new ≡ terms_at self.old }
    {
        match asked {
            Ok(Request::Book(call)) => self.call(call),
            Ok(Request::Margins { account }) => Ok(self.margins(account)),
            Err(fault) => Ok(Err(Cause::from(fault))),
        }
    }
}
