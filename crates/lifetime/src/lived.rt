// One life, from its sheet to its end.
use crate::usage::USAGE;
use anyhow::anyhow;
use journal::Journal;
use life::{Life, Teller};
use questions::Refusal;
use setup::Setup;
use sheet::{Cause, Desk};
use std::io::Read;
use terms::Terms;

// Runs the sheet over terms; where an account is followed, the law of the ledger is reckoned at the end, and the calls are
// handed as one list to a book over the same terms once more.
pub fn live<T: Terms + Drop>(
    rt: &HostRuntime,
    setup: &Setup,
    terms: T,
    again: T,
) -> anyhow::Result<()> {
    let heap = rt.alloc();
    let lines = setup::class_lines(heap, terms.classes(), setup.intervals.as_slice())?;
    let journal = match Journal::open(heap, terms, setup.month, setup.accounts, lines.as_slice()) {
        Ok(journal) => journal,
        Err(refused) => {
            let refusal = Refusal {
                cause: Cause::Book(refused.fault),
            };
            print!(rt; "{USAGE}")?;
            return Err(anyhow!("{refusal}"));
        }
    };
    let mut sheet = Vec::new(heap);
    rt.stdin().read_to_end(&mut sheet)?;
    let mut life = Life {
        desk: Desk::new(journal),
        text: String::new(heap),
    };
    let teller = Teller {
        product: setup.traded.product(),
        followed: setup.followed,
    };
    teller.tell(heap, &mut life, sheet.as_slice())?;
    teller.reckon(&mut life)?;
    let Life { desk, mut text } = life;
    if setup.followed.is_some() {
        let calls = desk.journal.entries().len();
        if let Some(other) = reckoning::differing_answers(
            heap,
            &desk.journal,
            again,
            setup.month,
            lines.as_slice(),
        )? {
            writeln!(
                text,
                "handed over as one list to a new book: of {calls} calls {other} get another answer"
            )?;
        }
    }
    let text = text.as_str();
    print!(rt; "{text}")?;
    Ok(())
}
