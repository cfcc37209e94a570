// What a book is.
ghost use Rattle.book.specs.Stores.{meaning_in, state_in};
ghost use Rattle.ledger.specs.Ledger.{Lived};

use crate::store::Store;
use terms::Terms;

/// A book over terms, which its calls alone change. Its make was accepted, a list of calls reached it, and the law of the
/// ledger held at the start and after each of them.
#[derive(Drop)]
pub struct Book<T: Terms> {
    pub(crate) store: Store<T>,
    ghost lived: { ∥ Lived (meaning_in store) (state_in store) ∥₁ },
}
