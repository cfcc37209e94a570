// What a reading of a history has told so far.
ghost use Rattle.history.specs.Small.{SmallLots, SmallCost};

/// How far a reading has come: how many calls were read, and the day after them. What they tell of one account: its accepted
/// buys less sells by month, and by class since the last accepted close; all its accepted trades at cost, and those of them
/// before that close. The final price of each month that is finally settled.
#[derive(Clone, Copy)]
pub struct Reading {
    pub calls: u32,
    pub day: u32,
    pub nets: [i64; 1200],
    pub finals: [Option<i32>; 1200],
    pub since: [i64; 12],
    pub costs: i128,
    pub booked: i128,
    ghost nets_small: { SmallLots 1200 calls nets },
    ghost since_small: { SmallLots 12 calls since },
    ghost costs_small: { SmallCost calls costs },
    ghost booked_small: { SmallCost calls booked },
}
