// What has a code number.
ghost use Rattle.std.specs.Prelude.{◌≡◌, ℕ};

// An entry that a list may be searched for by its code. The code of an entry is always the same.
pub trait Coded {
    ghost number: { Self → ℕ };

    fn code(&self) -> u32
        ensures { result ≡ number self.now };
}

// A number is its own code, as that of a closed day is.
impl Coded for u32 {
    ghost number = { λ n. n };

    fn code(&self) -> u32 {
        *self
    }
}
