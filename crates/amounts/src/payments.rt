// What an account is paid for its lots in a class. What one side is paid, the other pays.
ghost use Rattle.std.specs.Prelude.{◌≡◌, ◌^◌, ◌<◌, ◌≤◌, pos, ◌-ℤ◌, ◌*ℤ◌, unsigned_abs};
ghost use Rattle.amounts.specs.Amounts.{variation, part_payment, final_payment, OtherSidePays};

use crate::holding::{Holding, times};

// What lots are worth at a price, for one unit of quantity.
fn worth(price: i32, lots: i64) -> i128
    requires { unsigned_abs lots ≤ 2 ^ 32 }
    ensures is { result ≡ price *ℤ lots }
    ensures bound { unsigned_abs result ≤ 2 ^ 63 }
{
    times(i64::from(price), lots)
}

// What is gained from one worth to the next, less what trades cost.
fn gain(now: i128, before: i128, cost: i64) -> i128
    requires { (unsigned_abs now ≤ 2 ^ 63) × (unsigned_abs before ≤ 2 ^ 63) }
    ensures is { result ≡ now -ℤ before -ℤ cost }
    ensures bound { unsigned_abs result < 2 ^ 65 }
{
    now - before - i128::from(cost)
}

impl Holding {
    // The lots at the last close.
    fn lots_before(&self, traded: i32) -> i64
        ensures is { result ≡ self.now.lots -ℤ traded }
        ensures bound { unsigned_abs result ≤ 2 ^ 32 }
    {
        i64::from(self.lots) - i64::from(traded)
    }

    // What a gain for one unit of quantity comes to.
    fn for_quantity(&self, gain: i128) -> i128
        requires { unsigned_abs gain < 2 ^ 65 }
        ensures is { result ≡ pos self.now.quantity *ℤ gain }
        ensures bound { unsigned_abs result ≤ 2 ^ 98 }
        ensures other_side { OtherSidePays }
    {
        i128::from(self.quantity) * gain
    }

    // The variation margin of a day: `price` is the day's and `last` the last price, the lots are the lots now, `traded` the
    // lots of the day's trades and `cost` the sum of lots × price over them, a buy positive and a sell negative.
    pub fn variation(&self, price: i32, last: i32, traded: i32, cost: i64) -> i128
        ensures is { result ≡ variation self.now.quantity price self.now.lots last traded cost }
        ensures bound { unsigned_abs result ≤ 2 ^ 98 }
        ensures other_side { OtherSidePays }
    {
        let now = worth(price, i64::from(self.lots));
        let before = worth(last, self.lots_before(traded));
        self.for_quantity(gain(now, before, cost))
    }

    // What the lots of a class are paid for one part of it: by the part's quantity, and the last prices of part and whole.
    pub fn part_payment(&self, part: i32, whole: i32) -> i128
        ensures is { result ≡ part_payment self.now.quantity self.now.lots part whole }
        ensures bound { unsigned_abs result ≤ 2 ^ 96 }
        ensures other_side { OtherSidePays }
    {
        self.price_move(part, whole)
    }

    // The final settlement of lots at the price that they are settled at.
    pub fn final_payment(&self, settled: i32, last: i32) -> i128
        ensures is { result ≡ final_payment self.now.quantity self.now.lots settled last }
        ensures bound { unsigned_abs result ≤ 2 ^ 96 }
        ensures other_side { OtherSidePays }
    {
        self.price_move(settled, last)
    }
}
