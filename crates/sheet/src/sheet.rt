// A whole sheet.
ghost use Rattle.std.specs.Prelude.{◌≡◌, ◌+◌, ◌++◌, IfOk, string_bytes};
ghost use Rattle.journal.specs.Journals.{terms_of, state_of, entries_of, Lives};
ghost use Rattle.rows.specs.Headings.{places_in};
ghost use Rattle.sheet.specs.Desks.{terms_at, meaning_at, state_at, entries_at, text_by, state_by, entries_by};
ghost use Rattle.sheet.specs.Sheets.{rows_text, rows_state, rows_entries};
ghost use Rattle.text.specs.Readers.{lines_left, lines_read};

use crate::answer::Answer;
use crate::desk::Desk;
use crate::opening::{Head, opened};
use crate::writing::{write_answer, write_reply};
use journal::Journal;
use products::Product;
use std::alloc::{AllocError, Global};
use terms::Terms;

/// The answers to a sheet, and the journal of the book at which its lines were called.
#[derive(Drop)]
pub struct Answered<T: Terms> {
    pub text: String,
    pub journal: Journal<T>,
}

impl<T: Terms> Desk<T> {
    // The lines of values, one after the other.
    fn answer_rows(
        &mut self,
        product: Product,
        head: Head<'_>,
        text: &mut String,
    ) -> Result<(), AllocError>
        ensures text { IfOk result (λ u. string_bytes text.new ≡ string_bytes text.old ++ rows_text (meaning_at self.old) product (places_in head.entry.names) (lines_read head.entry.rows + 1) (state_at self.old) (lines_left head.entry.rows)) }
        ensures state { IfOk result (λ u. state_at self.new ≡ rows_state (meaning_at self.old) product (places_in head.entry.names) (state_at self.old) (lines_left head.entry.rows)) }
        ensures entries { IfOk result (λ u. entries_at self.new ≡ entries_at self.old ++ rows_entries (meaning_at self.old) product (places_in head.entry.names) (state_at self.old) (lines_left head.entry.rows)) }
        ensures terms { IfOk result (λ u. terms_at self.new ≡ terms_at self.old) }
    {
        let Head { names, mut rows } = head;
        while let Some(line) = rows.next_line() {
            let asked = names.request(product, line);
            let reply = self.reply(asked)?;
            write_reply(text, rows.line(), reply, &self.list)?;
        }
        Ok(())
    }
}

/// The answers to a sheet whose lines are called on a book; the book goes on from what it had. The law of the ledger held at
/// the start and after each call of its whole history.
pub fn answer_sheet<T: Terms>(
    heap: Global,
    product: Product,
    journal: Journal<T>,
    sheet: &[u8],
) -> Result<Answered<T>, AllocError>
where
    T: Drop,
    ensures text { IfOk result (λ a. string_bytes a.text ≡ text_by journal product sheet.now) }
    ensures state { IfOk result (λ a. state_of a.journal ≡ state_by journal product sheet.now) }
    ensures calls { IfOk result (λ a. entries_of a.journal ≡ entries_by journal product sheet.now) }
    ensures terms { IfOk result (λ a. terms_of a.journal ≡ terms_of journal) }
    ensures law { IfOk result (λ a. ∥ Lives a.journal ∥₁) }
{
    let mut text = String::new(heap);
    text.push_str("line,refusal,account,amount\n")?;
    let mut desk = Desk::new(journal);
    match opened(sheet) {
        Ok(head) => desk.answer_rows(product, head, &mut text)?,
        Err(fault) => write_answer(&mut text, Answer::refused(fault))?,
    }
    Ok(Answered {
        text,
        journal: desk.journal,
    })
}
