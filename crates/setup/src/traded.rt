// What is traded.
ghost use Rattle.std.specs.Prelude.{◌≡◌};
ghost use Rattle.setup.specs.Setups.{traded_named, product_of};

use products::Product;

#[derive(Clone, Copy, PartialEq, Eq, Debug)]
pub enum Traded {
    Baseload,
    Peakload,
    Wheat,
}

impl Traded {
    // What has just this name.
    pub(crate) fn of(name: &[u8]) -> Option<Traded>
        ensures { result ≡ traded_named name.now }
    {
        match name {
            b"baseload" => Some(Traded::Baseload),
            b"peakload" => Some(Traded::Peakload),
            b"wheat" => Some(Traded::Wheat),
            _ => None,
        }
    }

    // The product by whose names its classes are called.
    pub fn product(self) -> Product
        ensures { result ≡ product_of self }
    {
        match self {
            Traded::Baseload | Traded::Peakload => Product::Power,
            Traded::Wheat => Product::Wheat,
        }
    }
}
