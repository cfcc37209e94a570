// Lots of a class, and products that fit at every value of their types.
ghost use Rattle.std.specs.Prelude.{◌≡◌, ◌^◌, ◌≤◌, pos, ◌-ℤ◌, ◌*ℤ◌, unsigned_abs};
ghost use Rattle.amounts.specs.Amounts.{OtherSidePays};

// Lots of a class, and the quantity of one lot.
#[derive(Clone, Copy, PartialEq, Eq, Debug)]
pub struct Holding {
    pub quantity: u32,
    pub lots: i32,
}

pub(crate) fn times(a: i64, b: i64) -> i128
    ensures { result ≡ a *ℤ b }
{
    i128::from(a) * i128::from(b)
}

impl Holding {
    // The quantity of all its lots.
    pub(crate) fn whole_quantity(&self) -> i64
        ensures is { result ≡ pos self.now.quantity *ℤ self.now.lots }
        ensures bound { unsigned_abs result ≤ 2 ^ 63 }
    {
        i64::from(self.quantity) * i64::from(self.lots)
    }

    // What the lots gain as their price moves from the old to the new one.
    pub(crate) fn price_move(&self, new: i32, old: i32) -> i128
        ensures is { result ≡ pos self.now.quantity *ℤ self.now.lots *ℤ (new -ℤ old) }
        ensures bound { unsigned_abs result ≤ 2 ^ 96 }
        ensures other_side { OtherSidePays }
    {
        times(self.whole_quantity(), i64::from(new) - i64::from(old))
    }
}
