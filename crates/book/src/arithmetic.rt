// Sums and products that fit 64 bits, by the ranges of lots, prices and quantities.
ghost use Rattle.std.specs.Prelude.{◌≡◌, ◌≤◌, true, pos, ◌+ℤ◌, ◌-ℤ◌, ◌*ℤ◌, neg_ℤ, unsigned_abs};
ghost use Rattle.amounts.specs.Amounts.{variation as variation_of, OtherSidePays};
ghost use Rattle.ledger.specs.Calls.{lots_fit, cash_fits};

/// Whether lots of a class stay within what an account may hold, long and short.
pub(crate) fn is_within_limit(lots: i32) -> bool
    ensures is { result ≡ lots_fit lots }
    ensures size { result ≡ true → unsigned_abs lots ≤ 1000 }
{
    (-1000..=1000).contains(&lots)
}

/// Whether cash lies in its range.
pub(crate) fn is_cash(cash: i128) -> bool
    ensures is { result ≡ cash_fits cash }
    ensures size { result ≡ true → unsigned_abs cash ≤ 9000000000000000000 }
{
    (-9_000_000_000_000_000_000..=9_000_000_000_000_000_000).contains(&cash)
}

/// Cash and a payment together, in range or not.
pub(crate) fn cash_with(cash: i64, cents: i64) -> i128
    ensures { result ≡ cash +ℤ cents }
{
    i128::from(cash) + i128::from(cents)
}

pub(crate) fn more_cash(cash: i64, cents: i64) -> i64
    requires { unsigned_abs (cash +ℤ cents) ≤ 9000000000000000000 }
    ensures { result ≡ cash +ℤ cents }
{
    cash + cents
}

pub(crate) fn negative(lots: i32) -> i32
    requires { unsigned_abs lots ≤ 1000 }
    ensures is { result ≡ neg_ℤ lots }
    ensures size { unsigned_abs result ≤ 1000 }
{
    -lots
}

/// The lots of an account and of a trade together.
pub(crate) fn lots_with(lots: i32, more: i32) -> i32
    requires { (unsigned_abs lots ≤ 1000) × (unsigned_abs more ≤ 1000) }
    ensures { result ≡ lots +ℤ more }
{
    lots + more
}

/// What lots cost at a price.
pub(crate) fn cost_of(lots: i32, price: i32) -> i64
    requires { (unsigned_abs lots ≤ 1000) × (unsigned_abs price ≤ 100000) }
    ensures is { result ≡ lots *ℤ price }
    ensures bound { unsigned_abs result ≤ 100000000 }
{
    i64::from(lots) * i64::from(price)
}

// A price times lots.
fn worth(price: i32, lots: i64) -> i64
    requires { (unsigned_abs price ≤ 100000) × (unsigned_abs lots ≤ 100001000) }
    ensures is { result ≡ price *ℤ lots }
    ensures bound { unsigned_abs result ≤ 10000100000000 }
{
    i64::from(price) * lots
}

// A quantity times cents.
fn times(quantity: u32, cents: i64) -> i64
    requires { (quantity ≤ 8940) × (unsigned_abs cents ≤ 20000300000000) }
    ensures is { result ≡ pos quantity *ℤ cents }
    ensures bound { unsigned_abs result ≤ 178802682000000000 }
{
    i64::from(quantity) * cents
}

// What lots gained by the day's price, before the trades' cost is taken off.
fn gain(today: i32, lots: i32, last: i32, traded: i32) -> i64
    requires prices { (unsigned_abs today ≤ 100000) × (unsigned_abs last ≤ 100000) }
    requires lots { (unsigned_abs lots ≤ 1000) × (unsigned_abs traded ≤ 100000000) }
    ensures is { result ≡ today *ℤ lots -ℤ last *ℤ (lots -ℤ traded) }
    ensures bound { unsigned_abs result ≤ 10000200000000 }
{
    let before = i64::from(lots) - i64::from(traded);
    worth(today, i64::from(lots)) - worth(last, before)
}

/// The variation margin of lots in a class. What one side is paid, the other pays.
pub(crate) fn variation(
    quantity: u32,
    today: i32,
    lots: i32,
    last: i32,
    traded: i32,
    cost: i64,
) -> i64
    requires quantity { quantity ≤ 8940 }
    requires prices { (unsigned_abs today ≤ 100000) × (unsigned_abs last ≤ 100000) }
    requires lots { (unsigned_abs lots ≤ 1000) × (unsigned_abs traded ≤ 100000000) }
    requires cost { unsigned_abs cost ≤ 10000000000000 }
    ensures is { result ≡ variation_of quantity today lots last traded cost }
    ensures bound { unsigned_abs result ≤ 178802682000000000 }
    ensures other_side { OtherSidePays }
{
    times(quantity, gain(today, lots, last, traded) - cost)
}

// The quantity of lots.
fn whole_quantity(quantity: u32, lots: i32) -> i64
    requires { (quantity ≤ 8940) × (unsigned_abs lots ≤ 1000) }
    ensures is { result ≡ pos quantity *ℤ lots }
    ensures bound { unsigned_abs result ≤ 8940000 }
{
    i64::from(quantity) * i64::from(lots)
}

/// What lots gain as their price moves: what a part or a final settlement pays. What one side is paid, the other pays.
pub(crate) fn price_move(quantity: u32, lots: i32, new: i32, old: i32) -> i64
    requires lots { (quantity ≤ 8940) × (unsigned_abs lots ≤ 1000) }
    requires prices { (unsigned_abs new ≤ 100000) × (unsigned_abs old ≤ 100000) }
    ensures is { result ≡ pos quantity *ℤ lots *ℤ (new -ℤ old) }
    ensures bound { unsigned_abs result ≤ 1788000000000 }
    ensures other_side { OtherSidePays }
{
    whole_quantity(quantity, lots) * (i64::from(new) - i64::from(old))
}
