#![tactic(auto)]
// Runs a position's whole life: a sheet of calls from standard input, under a calendar that the buyer loads.
mod closed;
mod lived;
mod usage;

use crate::closed::{calendar, closed_days};
use crate::lived::live;
use crate::usage::USAGE;
use anyhow::anyhow;
use power::{Baseload, Peakload, Power};
use setup::{Setup, Traded};
use std::env;
use wheat::Wheat;

// Runs the life that is asked for, under the calendar of the file of closed days.
fn run(rt: &HostRuntime, setup: &Setup, path: &str) -> anyhow::Result<()> {
    let heap = rt.alloc();
    let closed = closed_days(rt, path)?;
    let first = calendar(heap, closed.clone()?)?;
    let second = calendar(heap, closed)?;
    match setup.traded {
        Traded::Baseload => live(
            rt,
            setup,
            Power {
                calendar: first,
                profile: Baseload,
            },
            Power {
                calendar: second,
                profile: Baseload,
            },
        ),
        Traded::Peakload => live(
            rt,
            setup,
            Power {
                calendar: first,
                profile: Peakload,
            },
            Power {
                calendar: second,
                profile: Peakload,
            },
        ),
        Traded::Wheat => live(
            rt,
            setup,
            Wheat { calendar: first },
            Wheat { calendar: second },
        ),
    }
}

fn main(rt: HostRuntime) -> anyhow::Result<()> {
    let heap = rt.alloc();
    let words: Vec<String> = env::args(&rt)?.skip(1).collect(heap)?;
    if words.is_empty() {
        print!(&rt; "{USAGE}")?;
        return Ok(());
    }
    match Setup::of(heap, words.as_slice()) {
        Ok(setup) => run(&rt, &setup, words.get(4).map_or("", |word| word.as_str())),
        Err(fault) => {
            print!(&rt; "{USAGE}")?;
            Err(anyhow!("{fault}"))
        }
    }
}
