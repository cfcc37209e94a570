// A class's initial margin, what a repricing adds to it, and an account's total.
ghost use Rattle.std.specs.Prelude.{◌≡◌, ◌^◌, ◌≤◌, pos, ◌*ℤ◌, unsigned_abs};
ghost use Rattle.amounts.specs.Amounts.{floor_by, Brackets, step_product, step_result, class_margin, LeastOfTen, repricing_addition, total_margin, Capped};
ghost use Rattle.amounts.specs.Steps.{factor_of};

use crate::holding::{Holding, times};
use crate::step::Step;

// How far a step moves the price, in parts of which 50,000 are a cent.
fn price_step(price: i32, interval: u16, factor: i8) -> i64
    ensures { result ≡ price *ℤ pos interval *ℤ factor }
{
    i64::from(price) * i64::from(interval) * i64::from(factor)
}

// Whole cents, rounded down.
fn floored(parts: i128) -> i128
    ensures is { result ≡ floor_by 50000 parts }
    ensures floor { Brackets 50000 parts result }
{
    parts.div_euclid(50_000)
}

// What a step makes of the quantity of all lots: the exact product, and then the one rounding.
fn step_cents(price: i32, interval: u16, whole: i64, step: Step) -> i128
    ensures is { result ≡ floor_by 50000 (price *ℤ pos interval *ℤ factor_of step *ℤ whole) }
    ensures floor { Brackets 50000 (price *ℤ pos interval *ℤ factor_of step *ℤ whole) result }
{
    floored(times(price_step(price, interval, step.factor()), whole))
}

impl Holding {
    // What one step gives.
    pub fn step_result(&self, price: i32, interval: u16, step: Step) -> i128
        ensures is { result ≡ step_result price interval self.now.quantity self.now.lots (factor_of step) }
        ensures floor { Brackets 50000 (step_product price interval self.now.quantity self.now.lots (factor_of step)) result }
    {
        step_cents(price, interval, self.whole_quantity(), step)
    }

    // The initial margin of a class: the least of the ten steps' results. It is never positive.
    pub fn margin(&self, price: i32, interval: u16) -> i128
        ensures is { result ≡ class_margin price interval self.now.quantity self.now.lots }
        ensures least { LeastOfTen price interval self.now.quantity self.now.lots result }
        ensures bound { unsigned_abs result ≤ 2 ^ 98 }
    {
        let whole = self.whole_quantity();
        Step::all()
            .iter()
            .map(|step| step_cents(price, interval, whole, *step))
            .min()
            .unwrap_or(0)
    }

    // The mark-to-market margin of a class that has a repricing.
    pub fn repricing_addition(&self, repriced: i32, last: i32) -> i128
        ensures is { result ≡ repricing_addition self.now.quantity self.now.lots repriced last }
        ensures bound { unsigned_abs result ≤ 2 ^ 96 }
    {
        self.price_move(repriced, last)
    }
}

// An account's margin, from the sum over its classes: a credit is never paid out.
pub fn total_margin(sum: i128) -> i128
    ensures is { result ≡ total_margin sum }
    ensures capped { Capped sum result }
{
    sum.min(0)
}
