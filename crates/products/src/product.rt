// The products, the names of their classes and their units.
ghost use Rattle.std.specs.Prelude.{◌≡◌, codes, unwrap_or, MatchOption, Some};
ghost use Rattle.std.specs.Option.{option_map};
ghost use Rattle.products.specs.Products.{class_name, is_called, class_of, NoneIsCalled, unit};

#[derive(Clone, Copy, PartialEq, Eq, Debug)]
pub enum Product {
    Power,
    Wheat,
}

// No product has more classes than this.
const CLASSES: u32 = 12;

impl Product {
    fn class_name(self, class: u32) -> Option<&'static str>
        ensures { option_map (λ x. x.now) result ≡ class_name self class }
    {
        match self {
            Product::Power => power::class_name(class),
            Product::Wheat => wheat::class_name(class),
        }
    }

    pub fn class_text(self, class: u32) -> &'static str
        ensures { result.now ≡ unwrap_or (class_name self class) (codes "no class") }
    {
        self.class_name(class).unwrap_or("no class")
    }

    // Whether a class has just this name.
    #[tactic(auto, unfolding(crate::specs::Products::is_called))]
    fn is_called(self, name: &[u8], class: u32) -> bool
        ensures { result ≡ is_called self name.now class }
    {
        self.class_name(class)
            .is_some_and(|known| known.as_bytes() == name)
    }

    // The class with that name, if there is one.
    pub fn class_of(self, name: &[u8]) -> Option<u32>
        ensures class { result ≡ class_of self name.now }
        ensures called { MatchOption result (NoneIsCalled self name.now) (λ c. class_name self c ≡ Some name.now) }
    {
        (0..CLASSES).find(|&class| self.is_called(name, class))
    }

    pub fn unit(self) -> &'static str
        ensures { result.now ≡ unit self }
    {
        match self {
            Product::Power => "MWh",
            Product::Wheat => "tons",
        }
    }
}
