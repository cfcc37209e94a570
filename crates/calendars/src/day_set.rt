// A set of days.
ghost use Rattle.std.specs.Prelude.{◌≡◌, ℕ, Bool};

// A fixed set of days, told day by day. The walks and counts are over these.
pub trait DaySet {
    ghost has: { Self → ℕ → Bool };

    fn contains(&self, day: u32) -> bool
        ensures { result ≡ has self.now day };
}
