// The lines of a payment list.

// An account, and the cents that a call paid it: a credit is positive, a debit negative.
#[derive(Clone, Copy, PartialEq, Eq, Debug)]
pub struct Payment {
    pub account: u32,
    pub cents: i128,
}
