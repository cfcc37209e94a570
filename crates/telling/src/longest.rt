// The class that a story buys.
ghost use Rattle.std.specs.Prelude.{IfSome, MatchOption};
ghost use Rattle.telling.specs.Longest.{IsTradable, NoneLonger, NoneTradable};

use terms::{Months, Terms};

// A longest tradable class of a day, with its months. It takes the last of several, which the clauses leave open.
pub fn longest_class<T: Terms>(terms: &T, day: u32) -> Option<(u32, Months)>
    ensures listed { IfSome result (λ r. IsTradable (T.meaning terms.now) day r.0 r.1) }
    ensures longest { MatchOption result (NoneTradable (T.meaning terms.now) day) (λ r. NoneLonger (T.meaning terms.now) day r.1.count) }
{
    (0..terms.classes())
        .filter_map(|class| {
            let here = terms.class_on(day, class).filter(|here| here.tradable)?;
            Some((class, here.months))
        })
        .max_by_key(|(_, months)| months.count)
}
