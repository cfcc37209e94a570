// The ten steps of a margin, five down and five up.
ghost use Rattle.std.specs.Prelude.{◌≡◌};
ghost use Rattle.amounts.specs.Steps.{all_steps, factor_of};

#[derive(Clone, Copy, PartialEq, Eq, Debug)]
pub enum Step {
    D5,
    D4,
    D3,
    D2,
    D1,
    U1,
    U2,
    U3,
    U4,
    U5,
}

const STEPS: [Step; 10] = [
    Step::D5,
    Step::D4,
    Step::D3,
    Step::D2,
    Step::D1,
    Step::U1,
    Step::U2,
    Step::U3,
    Step::U4,
    Step::U5,
];

impl Step {
    // The ten in the order of their results.
    pub fn all() -> [Step; 10]
        ensures { result ≡ all_steps }
    {
        STEPS
    }

    // By how many fifths of the interval the price moves. A `match`: equal discriminants do not compile, and it is the
    // contract that is to refuse two steps with one factor.
    pub fn factor(self) -> i8
        ensures { result ≡ factor_of self }
    {
        match self {
            Step::D5 => -5,
            Step::D4 => -4,
            Step::D3 => -3,
            Step::D2 => -2,
            Step::D1 => -1,
            Step::U1 => 1,
            Step::U2 => 2,
            Step::U3 => 3,
            Step::U4 => 4,
            Step::U5 => 5,
        }
    }
}
