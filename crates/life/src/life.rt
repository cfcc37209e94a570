// A book's life, and who tells it.
ghost use Rattle.std.specs.Prelude.{◌≡◌, ◌+◌, ◌++◌, Ok, IfOk, string_bytes};
ghost use Rattle.journal.specs.Journals.{Lives};
ghost use Rattle.ledger.specs.declared.call.Call.{Call as Called};
ghost use Rattle.life.specs.Lives.{terms_in, meaning_in, run_of, run_told, text_reckoned};
ghost use Rattle.life.specs.Paths.{followed_text};
ghost use Rattle.life.specs.Runs.{moves, asked_run, accepts, calls_run, all_pass, day_run, day_passes, days_run, line_run, rows_run};
ghost use Rattle.rows.specs.Headings.{places_in};
ghost use Rattle.rows.specs.declared.request.Request.TheVariants.{Book as OfBook};
ghost use Rattle.sheet.specs.Desks.{state_at};
ghost use Rattle.text.specs.Readers.{lines_left, lines_read};

use crate::day_calls::day_calls;
use crate::path::Path;
use crate::told::Opening;
use ledger::Call;
use products::Product;
use rows::{Advance, Names, Request, SheetFault};
use sheet::{Desk, Head, headed};
use std::alloc::{AllocError, Global};
use terms::Terms;

/// A desk at which calls are made, and what has been told of them.
#[derive(Drop)]
pub struct Life<T: Terms> {
    pub desk: Desk<T>,
    pub text: String,
}

/// Tells the life of a product's book, and the path of an account, if one is followed.
#[derive(Clone, Copy)]
pub struct Teller {
    pub product: Product,
    pub followed: Option<u32>,
}

// Whether an account's path goes on after such a line, where it is accepted.
fn moves(asked: Result<Request, SheetFault>) -> bool
    ensures { result ≡ moves asked }
{
    matches!(
        asked,
        Ok(Request::Book(Call::Settle { .. } | Call::Close { .. }))
    )
}

impl Teller {
    // The path of the account that is followed.
    fn tell_path<T: Terms>(self, life: &mut Life<T>) -> Result<(), AllocError>
        ensures text { IfOk result (λ u. string_bytes life.new.text ≡ string_bytes life.old.text ++ followed_text (meaning_in life.old) self.product (state_at life.old.desk) self.followed) }
        ensures same { life.new.desk ≡ life.old.desk }
    {
        let Some(account) = self.followed else {
            return Ok(());
        };
        let path = Path {
            product: self.product,
            book: life.desk.journal.book(),
            account,
        };
        path.write(&mut life.text)
    }

    // A line that asks this, told by its number: whether it is accepted.
    #[tactic(auto, unfolding(crate::specs::Runs::asked_run))]
    fn ask<T: Terms>(
        self,
        life: &mut Life<T>,
        line: usize,
        asked: Result<Request, SheetFault>,
    ) -> Result<bool, AllocError>
        ensures run { IfOk result (λ u. run_of life.new ≡ asked_run (meaning_in life.old) self.product self.followed line asked (run_of life.old)) }
        ensures accepted { (call : Called) → asked ≡ Ok (OfBook call) → IfOk result (λ a. a ≡ accepts (meaning_in life.old) self.product self.followed call (run_of life.old)) }
        ensures terms { terms_in life.new ≡ terms_in life.old }
    {
        let day = life.desk.journal.book().day();
        let reply = life.desk.reply(asked)?;
        let opening = Opening { line, day };
        opening.tell_reply(&mut life.text, asked, reply, &life.desk.list)?;
        if moves(asked) && reply.is_ok() {
            self.tell_path(life)?;
        }
        Ok(reply.is_ok())
    }

    // Calls, up to the first that is refused: whether none is.
    fn call_all<T: Terms>(
        self,
        life: &mut Life<T>,
        line: usize,
        calls: &[Call],
    ) -> Result<bool, AllocError>
        ensures run { IfOk result (λ u. run_of life.new ≡ calls_run (meaning_in life.old) self.product self.followed line calls.now (run_of life.old)) }
        ensures all { IfOk result (λ a. a ≡ all_pass (meaning_in life.old) self.product self.followed line calls.now (run_of life.old)) }
        ensures terms { terms_in life.new ≡ terms_in life.old }
    {
        for call in calls {
            if !self.ask(life, line, Ok(Request::Book(*call)))? {
                return Ok(false);
            }
        }
        Ok(true)
    }

    // A day that is advanced over: whether none of its calls is refused.
    fn advance_day<T: Terms>(
        self,
        heap: Global,
        life: &mut Life<T>,
        line: usize,
        advance: Advance,
    ) -> Result<bool, AllocError>
        ensures run { IfOk result (λ u. run_of life.new ≡ day_run (meaning_in life.old) self.product self.followed line advance.price (run_of life.old)) }
        ensures all { IfOk result (λ a. a ≡ day_passes (meaning_in life.old) self.product self.followed line advance.price (run_of life.old)) }
        ensures terms { terms_in life.new ≡ terms_in life.old }
    {
        let calls = day_calls(heap, &life.desk, advance.price)?;
        self.call_all(life, line, calls.as_slice())
    }

    // So many days, up to the first call that is refused.
    fn advance<T: Terms>(
        self,
        heap: Global,
        life: &mut Life<T>,
        line: usize,
        advance: Advance,
    ) -> Result<(), AllocError>
        ensures run { IfOk result (λ u. run_of life.new ≡ days_run (meaning_in life.old) self.product self.followed line advance.price advance.days (run_of life.old)) }
        ensures terms { terms_in life.new ≡ terms_in life.old }
    {
        for _ in 0..advance.days {
            if !self.advance_day(heap, life, line, advance)? {
                return Ok(());
            }
        }
        Ok(())
    }

    // A line of values.
    fn line<T: Terms>(
        self,
        heap: Global,
        life: &mut Life<T>,
        names: &Names,
        number: usize,
        line: &[u8],
    ) -> Result<(), AllocError>
        ensures run { IfOk result (λ u. run_of life.new ≡ line_run (meaning_in life.old) self.product self.followed (places_in names.now) number line.now (run_of life.old)) }
        ensures terms { terms_in life.new ≡ terms_in life.old }
    {
        match names.advance(line) {
            Some(Ok(advance)) => self.advance(heap, life, number, advance),
            Some(Err(fault)) => self.ask(life, number, Err(fault)).map(|_| ()),
            None => self
                .ask(life, number, names.request(self.product, line))
                .map(|_| ()),
        }
    }

    // The lines of values, one after the other.
    fn rows<T: Terms>(
        self,
        heap: Global,
        life: &mut Life<T>,
        head: Head<'_>,
    ) -> Result<(), AllocError>
        ensures run { IfOk result (λ u. run_of life.new ≡ rows_run (meaning_in life.old) self.product self.followed (places_in head.entry.names) (lines_read head.entry.rows + 1) (lines_left head.entry.rows) (run_of life.old)) }
        ensures terms { terms_in life.new ≡ terms_in life.old }
    {
        let Head { names, mut rows } = head;
        while let Some(line) = rows.next_line() {
            self.line(heap, life, &names, rows.line(), line)?;
        }
        Ok(())
    }

    /// A whole sheet, of any length: its calls are made at the desk, and told behind what was told before. The law of the
    /// ledger held at the start and after each call of the whole history, also where memory runs out.
    pub fn tell<T: Terms>(
        self,
        heap: Global,
        life: &mut Life<T>,
        sheet: &[u8],
    ) -> Result<(), AllocError>
        ensures run { IfOk result (λ u. run_of life.new ≡ run_told self life.old sheet.now) }
        ensures law { ∥ Lives life.new.desk.journal ∥₁ }
        ensures terms { terms_in life.new ≡ terms_in life.old }
    {
        match headed(sheet) {
            Ok(head) => self.rows(heap, life, head),
            Err(fault) => {
                let opening = Opening {
                    line: fault.line,
                    day: life.desk.journal.book().day(),
                };
                opening.tell_refusal(&mut life.text, fault.cause)
            }
        }
    }

    /// The law of the ledger in figures, where an account is followed, behind what was told before.
    pub fn reckon<T: Terms>(self, life: &mut Life<T>) -> Result<(), AllocError>
        ensures text { IfOk result (λ u. string_bytes life.new.text ≡ text_reckoned self life.old) }
        ensures same { life.new.desk ≡ life.old.desk }
    {
        let Some(account) = self.followed else {
            return Ok(());
        };
        reckoning::tell_sums(&mut life.text, life.desk.journal.book())?;
        reckoning::tell_account(&mut life.text, &life.desk.journal, account)
    }
}
