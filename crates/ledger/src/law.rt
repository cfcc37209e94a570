// The law of the ledger.
ghost use Rattle.ledger.specs.Ledger.{LedgerStands};

// The law holds of every book, under all terms that keep their laws, and a book has what it was made with. It is a theorem of
// the definitions: the number that is answered means nothing.
pub fn ledger_stands() -> u8
    ensures { LedgerStands }
{
    0
}
