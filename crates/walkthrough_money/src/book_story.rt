// One position from the trade to the final settlement, with its money.
// The runtime, the product and the desk are passed on together: a struct of three borrows would say no more than their
// names.
use crate::desk::Desk;
use crate::margin_story;
use ledger::Call;
use products::Product;
use telling::{day_text, longest_class, months_text};
use terms::Terms;

// The settlement price of a class on a day: dearer for later months of the year, and moving from day to day.
fn settlement_price<T: Terms>(terms: &T, day: u32, class: u32) -> Option<i32> {
    let here = terms.class_on(day, class).filter(|here| here.tradable)?;
    let month = (here.months.first % 12) as i32;
    let step = (day % 5) as i32;
    Some(bench::PRICE + 25 * month - 20 * step)
}

// What account 0 holds, class by class.
fn tell_holdings<T: Terms>(
    rt: &HostRuntime,
    product: Product,
    desk: &Desk<T>,
) -> anyhow::Result<()> {
    let day = desk.day();
    for (class, lots) in (0..12u32).zip(desk.holdings()) {
        if lots != 0 {
            if let Some(here) = desk.terms().class_on(day, class) {
                let name = product.class_text(class);
                let span = months_text(rt.alloc(), here.months)?;
                let amount = terms::quantity_of(desk.terms(), day, class);
                let unit = product.unit();
                println!(rt; "    {lots} lot of {name}: {span}, {amount} {unit}.")?;
            }
        }
    }
    Ok(())
}

// The trade that begins the story: whether it was made.
fn open_position<T: Terms>(
    rt: &HostRuntime,
    product: Product,
    desk: &mut Desk<T>,
) -> anyhow::Result<bool> {
    let day = desk.day();
    let date = day_text(rt.alloc(), day)?;
    let Some((class, months)) = longest_class(desk.terms(), day) else {
        println!(rt; "No class is tradable on {date}.")?;
        return Ok(false);
    };
    let price = bench::PRICE;
    let trade = Call::Trade {
        buyer: 0,
        seller: 1,
        class,
        lots: 1,
        price,
    };
    if desk.call(trade)?.is_err() {
        return Ok(false);
    }
    let name = product.class_text(class);
    let span = months_text(rt.alloc(), months)?;
    let amount = terms::quantity_of(desk.terms(), day, class);
    let unit = product.unit();
    println!(rt;
        "On {date} account 0 buys 1 lot of {name} from account 1 at {price} cents: {span}, {amount} {unit} in all."
    )?;
    Ok(true)
}

fn mark_all<T: Terms>(desk: &mut Desk<T>) -> anyhow::Result<()> {
    let day = desk.day();
    for class in 0..12u32 {
        if let Some(price) = settlement_price(desk.terms(), day, class) {
            let _ = desk.call(Call::Mark { class, price })?;
        }
    }
    Ok(())
}

// The final settlement, on the first day on which there is something to settle.
fn settle<T: Terms>(rt: &HostRuntime, product: Product, desk: &mut Desk<T>) -> anyhow::Result<()> {
    let class = desk.terms().settling();
    if desk.last_price(class).is_none() {
        return Ok(());
    }
    let held = desk.holdings()[class as usize] != 0;
    let price = bench::FINAL_PRICE;
    if desk.call(Call::Settle { price, room: 2 })?.is_ok() && held {
        let date = day_text(rt.alloc(), desk.day())?;
        let name = product.class_text(class);
        let paid = desk.paid();
        let cash = desk.cash(0);
        println!(rt;
            "  On {date} {name} is finally settled at {price} cents: account 0 is paid {paid} cents, and its cash is {cash} cents."
        )?;
    }
    Ok(())
}

// The first class that is not tradable and has a last price, in which account 0 holds lots.
fn delivery_class<T: Terms>(desk: &Desk<T>) -> Option<u32> {
    let day = desk.day();
    (0..12u32)
        .zip(desk.holdings())
        .filter(|(class, lots)| *lots != 0 && desk.last_price(*class).is_some())
        .map(|(class, _)| class)
        .find(|class| {
            desk.terms()
                .class_on(day, *class)
                .is_some_and(|here| !here.tradable)
        })
}

// A repricing moves margins and no cash. It is told once, and the answer says whether it was.
fn reprice<T: Terms>(
    rt: &HostRuntime,
    product: Product,
    desk: &mut Desk<T>,
) -> anyhow::Result<bool> {
    let Some(class) = delivery_class(desk) else {
        return Ok(false);
    };
    let before = desk.margin();
    let cash = desk.cash(0);
    let price = bench::PRICE - 400;
    if desk.call(Call::Reprice { class, price })?.is_err() {
        return Ok(false);
    }
    let date = day_text(rt.alloc(), desk.day())?;
    let name = product.class_text(class);
    let after = desk.margin();
    let moved = desk.cash(0).saturating_sub(cash);
    println!(rt;
        "  On {date} {name} is repriced at {price} cents: the margin of account 0 goes from {before} to {after} cents, and {moved} cents of cash move."
    )?;
    Ok(true)
}

// What the closes without a word paid since the last one that was told of.
#[derive(Clone, Copy)]
pub struct Quiet {
    closes: u32,
    paid: i128,
}

// The end of a day: told where lots moved, and on the first day.
fn close<T: Terms>(
    rt: &HostRuntime,
    product: Product,
    desk: &mut Desk<T>,
    quiet: Quiet,
    first: bool,
) -> anyhow::Result<Quiet> {
    let date = day_text(rt.alloc(), desk.day())?;
    let before = desk.holdings();
    if desk.call(Call::Close { room: 2 })?.is_err() {
        return Ok(quiet);
    }
    let paid = desk.paid();
    if !first && before == desk.holdings() {
        return Ok(Quiet {
            closes: quiet.closes.saturating_add(1),
            paid: quiet.paid.saturating_add(paid),
        });
    }
    if quiet.closes > 0 {
        let Quiet { closes, paid } = quiet;
        println!(rt; "  The next {closes} closes pay account 0 {paid} cents in all.")?;
    }
    let cash = desk.cash(0);
    println!(rt;
        "  The close of {date} pays account 0 {paid} cents, and its cash is {cash} cents. It holds:"
    )?;
    tell_holdings(rt, product, desk)?;
    Ok(Quiet { closes: 0, paid: 0 })
}

fn holds_nothing<T: Terms>(desk: &Desk<T>) -> bool {
    desk.holdings() == [0; 12]
}

// Day after day, until nothing is held any more.
fn live<T: Terms>(rt: &HostRuntime, product: Product, desk: &mut Desk<T>) -> anyhow::Result<()> {
    let mut quiet = Quiet { closes: 0, paid: 0 };
    let mut repriced = false;
    for turn in 0..2000u32 {
        settle(rt, product, desk)?;
        if holds_nothing(desk) {
            println!(rt; "  All its months are settled, and account 0 holds nothing.")?;
            return Ok(());
        }
        if !repriced {
            repriced = reprice(rt, product, desk)?;
        }
        mark_all(desk)?;
        quiet = close(rt, product, desk, quiet, turn == 0)?;
        if turn == 0 {
            margin_story::tell(rt, product, desk)?;
        }
    }
    Ok(())
}

// The whole life of one position, and whether there was one.
pub fn tell<T: Terms>(
    rt: &HostRuntime,
    product: Product,
    desk: &mut Desk<T>,
) -> anyhow::Result<bool> {
    let opened = open_position(rt, product, desk)?;
    if opened {
        live(rt, product, desk)?;
    }
    Ok(opened)
}
