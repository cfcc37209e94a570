// What a class is on a day.
ghost use Rattle.std.specs.Prelude.{◌≡◌, Some};
ghost use Rattle.terms.specs.Meaning.{in_months, is_part, has_some_part};

// A run of months.
#[derive(Clone, Copy, PartialEq, Eq, Debug)]
pub struct Months {
    pub first: u32,
    pub count: u32,
}

impl Months {
    // Whether a month is one of the run.
    pub fn contains(&self, month: u32) -> bool
        ensures { result ≡ in_months (Some self.now) month }
    {
        month >= self.first && month - self.first < self.count
    }
}

// A class on a day: its months, whether it is tradable, whose margin interval it takes, which classes are its parts (by
// class number), and its successor on the next open day.
#[derive(Clone, Copy, PartialEq, Eq, Debug)]
pub struct ClassTerms {
    pub months: Months,
    pub tradable: bool,
    pub interval_class: u32,
    pub parts: [bool; 12],
    pub successor: Option<u32>,
}

impl ClassTerms {
    // Whether a class, by number, is a part of this one.
    pub fn is_part(&self, part: u32) -> bool
        ensures { result ≡ is_part (Some self.now) part }
    {
        self.parts.get(part as usize).copied().unwrap_or(false)
    }

    pub fn has_parts(&self) -> bool
        ensures { result ≡ has_some_part (Some self.now) }
    {
        self.parts.contains(&true)
    }
}
