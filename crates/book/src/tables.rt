// The tables of a book: plain values, which its calls read and write in place.
use crate::account::Account;
use crate::prices::Prices;
use arrayvec::ArrayVec;
use coded::ClassLine;

/// A book's start month, how many trades were accepted, its accounts (as many as it was made with), and by class number its
/// prices and class lines; past the last class there are none. The memory is fixed, so that no call fails for want of it.
#[derive(Drop)]
pub(crate) struct Tables {
    pub(crate) month: u32,
    pub(crate) accepted: u32,
    pub(crate) accounts: ArrayVec<Account, 32>,
    pub(crate) prices: [Prices; 12],
    pub(crate) lines: [ClassLine; 12],
}
