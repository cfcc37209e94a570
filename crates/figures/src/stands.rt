// Theorems of the definitions: the numbers that are answered mean nothing.
ghost use Rattle.figures.specs.Figures.{Figures};
ghost use Rattle.figures.specs.Products.{AllProducts};

use calendars::Calendar;

/// The bench's figures follow from the definitions.
pub fn figures_stand() -> u8
    ensures { Figures }
{
    0
}

/// The law of the ledger holds of every book of Baseload, of Peakload and of wheat over the calendar, at the start and
/// after each call, and the book has what it was made with.
pub fn all_products_stand<C: Calendar>(calendar: &C) -> u8
    ensures { AllProducts (C.opens calendar.now) }
{
    let _ = calendar;
    0
}
