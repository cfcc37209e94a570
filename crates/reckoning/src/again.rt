// The calls of a journal, handed over once more as one list.
ghost use Rattle.std.specs.Prelude.{◌≡◌, IfOk, IfSome, IfNone};
ghost use Rattle.reckoning.specs.Again.{answer_number, differing, Makes, Refuses, Differ, Same};

use book::Book;
use coded::ClassLine;
use journal::Journal;
use ledger::{Entry, Fault};
use std::alloc::{AllocError, Global};
use terms::Terms;

// The number of the question that was answered no, or 0 where the call was accepted.
fn answer_number(answer: Option<Fault>) -> u8
    ensures { result ≡ answer_number answer }
{
    answer.map_or(0, |fault| fault.number())
}

// At how many places of two lists the answers differ.
fn differing(first: &[Entry], second: &[Entry]) -> usize
    ensures { result ≡ differing first.now second.now }
{
    first
        .iter()
        .zip(second.iter())
        .filter(|(a, b)| answer_number(a.answer) != answer_number(b.answer))
        .count()
}

/// How many calls of a journal get another answer from a new book over such terms, when they are handed to it as one list;
/// none where no such book can be made.
pub fn differing_answers<T: Terms>(
    heap: Global,
    journal: &Journal<T>,
    terms: T,
    month: u32,
    lines: &[ClassLine],
) -> Result<Option<usize>, AllocError>
where
    T: Drop,
    ensures made { IfOk result (λ o. IfSome o (λ n. Makes journal.now terms month lines.now)) }
    ensures refused { IfOk result (λ o. IfNone o (Refuses journal.now terms month lines.now)) }
    ensures counts { IfOk result (λ o. IfSome o (Differ journal.now terms month lines.now)) }
    ensures same { Same journal.now terms month → IfOk result (λ o. IfSome o (λ n. n ≡ 0)) }
{
    let mut again = journal.entries().to_vec(heap)?;
    let accounts = journal.book().accounts();
    match Book::replay(terms, month, accounts, lines, again.as_mut_slice()) {
        Ok(_) => Ok(Some(differing(journal.entries(), again.as_slice()))),
        Err(_) => Ok(None),
    }
}
