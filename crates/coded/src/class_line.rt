// The lines that a buyer gives for the classes of a book.
use crate::coded::Coded;

// A class by its number, and its margin interval in hundredths of a percent.
#[derive(Clone, Copy, PartialEq, Eq, Debug)]
pub struct ClassLine {
    pub class: u32,
    pub interval: u16,
}

impl Coded for ClassLine {
    ghost number = { λ l. l.class };

    fn code(&self) -> u32 {
        self.class
    }
}
