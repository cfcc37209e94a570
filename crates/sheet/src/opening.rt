// The head of a sheet: its length and its names line.
ghost use Rattle.std.specs.Prelude.{◌≡◌, Ok, Err, IfOk, IfErr};
ghost use Rattle.sheet.specs.Heads.{head_of};
ghost use Rattle.sheet.specs.Sheets.{headed, opened};
ghost use Rattle.sheet.specs.declared.cause.Cause.TheVariants.{Sheet};
ghost use Rattle.text.specs.Lines.{lines};
ghost use Rattle.text.specs.Readers.{lines_read};

use crate::cause::{Cause, LineFault};
use rows::{Names, SheetFault};
use text::Reader;

// How many bytes a sheet may have.
const MOST_BYTES: usize = 65_536;

/// Where the columns stand, and the reader of the lines below the names line.
#[derive(Drop)]
pub struct Head<'a> {
    pub names: Names,
    pub rows: Reader<'a>,
}

// A fault of the sheet in a line.
fn fault_at(fault: SheetFault, line: usize) -> LineFault
    ensures { result ≡ record { line = line; cause = Sheet fault } }
{
    Cause::from(fault).at(line)
}

/// The head of a sheet of any length: its names line, or why it has none.
pub fn headed(sheet: &[u8]) -> Result<Head<'_>, LineFault>
    ensures head { IfOk result (λ o. headed (lines sheet.now) ≡ Ok (head_of o)) }
    ensures first { IfOk result (λ o. lines_read o.rows ≡ 1) }
    ensures fault { IfErr result (λ fault. headed (lines sheet.now) ≡ Err fault) }
{
    let mut rows = Reader::new(sheet);
    let Some(line) = rows.next_line() else {
        return Err(fault_at(SheetFault::ColumnNames, 1));
    };
    match Names::of(line) {
        Ok(names) => Ok(Head { names, rows }),
        Err(fault) => Err(fault_at(fault, 1)),
    }
}

// The head of a sheet, or why it is refused.
pub(crate) fn opened(sheet: &[u8]) -> Result<Head<'_>, LineFault>
    ensures head { IfOk result (λ o. opened sheet.now ≡ Ok (head_of o)) }
    ensures first { IfOk result (λ o. lines_read o.rows ≡ 1) }
    ensures fault { IfErr result (λ fault. opened sheet.now ≡ Err fault) }
{
    if sheet.len() > MOST_BYTES {
        return Err(fault_at(SheetFault::TooLong, 0));
    }
    headed(sheet)
}
