// The law of the ledger, told of a book and the list of all its calls.
use crate::desk::{Desk, class_lines};
use terms::Terms;

// The law's three parts, read off the list of calls.
pub fn tell<T: Terms>(rt: &HostRuntime, desk: &Desk<T>) -> anyhow::Result<()> {
    let count = desk.journal.entries().len();
    println!(rt;
        "The law of the ledger, read off the list of its {count} calls and their answers:"
    )?;
    let mut text = String::new(rt.alloc());
    reckoning::tell_sums(&mut text, desk.journal.book())?;
    for account in 0..bench::ACCOUNTS {
        reckoning::tell_account(&mut text, &desk.journal, account)?;
    }
    let text = text.as_str();
    print!(rt; "{text}")?;
    Ok(())
}

// The same calls, handed over as one list to a new book over the same terms.
pub fn tell_replay<T: Terms + Drop>(
    rt: &HostRuntime,
    desk: &Desk<T>,
    terms: T,
    month: u32,
) -> anyhow::Result<()> {
    let lines = class_lines();
    let classes = terms.classes().min(12) as usize;
    let differing = reckoning::differing_answers(
        rt.alloc(),
        &desk.journal,
        terms,
        month,
        &lines[..classes],
    )?;
    if let Some(other) = differing {
        println!(rt;
            "Handed over as one list to a new book, of the same calls {other} get another answer."
        )?;
    }
    Ok(())
}
