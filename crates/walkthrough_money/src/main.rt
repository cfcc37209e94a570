#![tactic(auto)]
// Follows two positions with their money, from the trade to the final settlement, in plain sentences.
mod book_story;
mod desk;
mod law_story;
mod margin_story;

use crate::desk::Desk;
use anyhow::anyhow;
use calendars::ListCalendar;
use power::{Baseload, Power};
use products::Product;
use terms::Terms;
use wheat::Wheat;

// One position's life over terms; then the law of the ledger, and the same calls over the same terms once more.
fn tell_position<T: Terms + Drop>(
    rt: &HostRuntime,
    product: Product,
    terms: T,
    again: T,
    year: u32,
) -> anyhow::Result<()> {
    let month = year.saturating_add(bench::START_IN_YEAR);
    let Some(mut desk) = Desk::open(rt.alloc(), terms, month) else {
        println!(rt; "No book can be made from that month on.")?;
        return Ok(());
    };
    if book_story::tell(rt, product, &mut desk)? {
        law_story::tell(rt, &desk)?;
        law_story::tell_replay(rt, &desk, again, month)?;
    }
    Ok(())
}

// The calendar of a list that was accepted before.
fn calendar_of(closed: Vec<u32>) -> anyhow::Result<ListCalendar> {
    ListCalendar::new(closed).map_err(|_| anyhow!("the list is no calendar"))
}

fn baseload(calendar: ListCalendar) -> Power<ListCalendar, Baseload> {
    Power {
        calendar,
        profile: Baseload,
    }
}

// Both positions, each over a calendar of its own.
fn tell(rt: &HostRuntime, closed: Vec<u32>) -> anyhow::Result<()> {
    let year = telling::first_month(rt.alloc(), closed.as_slice())?;
    let Some(calendar) = telling::tell_list(rt, closed.clone()?, year)? else {
        return Ok(());
    };
    let again = calendar_of(closed.clone()?)?;
    tell_position(
        rt,
        Product::Power,
        baseload(calendar),
        baseload(again),
        year,
    )?;
    let wheat = Wheat {
        calendar: calendar_of(closed.clone()?)?,
    };
    let again = Wheat {
        calendar: calendar_of(closed)?,
    };
    tell_position(rt, Product::Wheat, wheat, again, year)
}

fn run(rt: &HostRuntime) -> anyhow::Result<()> {
    println!(rt; "Tekkuvazh, a margin book for power and durum-wheat futures.")?;
    match telling::closed_days(rt)? {
        Some(closed) => tell(rt, closed),
        None => Ok(()),
    }
}

fn main(rt: HostRuntime) -> anyhow::Result<()> {
    run(&rt)
}
