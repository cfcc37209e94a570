// The prices of the classes.
ghost use Rattle.std.specs.Prelude.{◌≤◌, unsigned_abs};

/// A price in cents for a MWh or a ton, from −100,000 to 100,000.
#[derive(Clone, Copy, PartialEq, Eq, Debug)]
pub(crate) struct Price {
    pub(crate) cents: i32,
    ghost small: { unsigned_abs cents ≤ 100000 },
}

/// The prices of one class; each may be missing.
#[derive(Clone, Copy, PartialEq, Eq, Debug)]
pub(crate) struct Prices {
    pub(crate) last: Option<Price>,
    pub(crate) today: Option<Price>,
    pub(crate) repriced: Option<Price>,
}

/// No prices.
pub(crate) const UNPRICED: Prices = Prices {
    last: None,
    today: None,
    repriced: None,
};

impl Prices {
    ghost use Rattle.std.specs.Prelude.{◌≡◌, Some, None};

    /// These with the day's price; a later one replaces an earlier one.
    pub(crate) fn marked(self, price: Price) -> Self
        ensures { result ≡ record self { today = Some price } }
    {
        Prices {
            today: Some(price),
            ..self
        }
    }

    /// These with a new price for margins only.
    pub(crate) fn repriced(self, price: Price) -> Self
        ensures { result ≡ record self { repriced = Some price } }
    {
        Prices {
            repriced: Some(price),
            ..self
        }
    }

    /// These once the class was finally settled: it has neither a last price nor a repricing.
    pub(crate) fn settled(self) -> Self
        ensures { result ≡ record self { last = None; repriced = None } }
    {
        Prices {
            today: self.today,
            ..UNPRICED
        }
    }
}

impl Price {
    ghost use Rattle.std.specs.Prelude.{◌≡◌, ◌≤◌, is_some, IfSome, unsigned_abs};
    ghost use Rattle.book.specs.Markets.{cents_in};
    ghost use Rattle.ledger.specs.Calls.{price_fits};
    ghost use Rattle.ledger.specs.Words.{or_zero};

    /// A price in range, or none.
    pub(crate) fn new(cents: i32) -> Option<Price>
        ensures fits { is_some result ≡ price_fits cents }
        ensures value { IfSome result (λ price. price.cents ≡ cents) }
    {
        if (-100_000..=100_000).contains(&cents) {
            Some(Price { cents })
        } else {
            None
        }
    }

    /// The cents of a price; a missing one counts as 0.
    pub(crate) fn or_zero(price: Option<Price>) -> i32
        ensures is { result ≡ or_zero (cents_in price) }
        ensures small { unsigned_abs result ≤ 100000 }
    {
        match price {
            Some(price) => price.cents,
            None => 0,
        }
    }

    /// The cents of a price, or none.
    pub(crate) fn cents(price: Option<Price>) -> Option<i32>
        ensures is { result ≡ cents_in price }
        ensures small { IfSome result (λ cents. unsigned_abs cents ≤ 100000) }
    {
        match price {
            Some(price) => Some(price.cents),
            None => None,
        }
    }
}
