// What a book was asked and what it answered.
use crate::call::Call;
use crate::fault::Fault;

// A call, and the question that was answered no, or none where the call was accepted: an `Option`, since the law of the
// ledger compares it with the question that the definitions say was answered no.
#[derive(Clone, Copy, PartialEq, Eq, Debug)]
pub struct Entry {
    pub call: Call,
    pub answer: Option<Fault>,
}
