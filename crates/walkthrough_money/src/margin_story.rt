// The initial margin of the position on its first evening, step by step.
use crate::desk::Desk;
use amounts::{Holding, Step};
use products::Product;
use terms::Terms;

// The first class in which account 0 holds lots, and its last price.
fn held_class<T: Terms>(desk: &Desk<T>) -> Option<(u32, i32, i32)> {
    let (class, lots) = (0..12u32)
        .zip(desk.holdings())
        .find(|(_, lots)| *lots != 0)?;
    let price = desk.last_price(class)?;
    Some((class, lots, price))
}

pub fn tell<T: Terms>(rt: &HostRuntime, product: Product, desk: &Desk<T>) -> anyhow::Result<()> {
    let Some((class, lots, price)) = held_class(desk) else {
        return Ok(());
    };
    let name = product.class_text(class);
    let interval = bench::INTERVAL;
    let holding = Holding {
        quantity: terms::quantity_of(desk.terms(), desk.day(), class),
        lots,
    };
    println!(rt;
        "  Its initial margin at the last price of {name}, {price} cents, and an interval of {interval} hundredths of a percent:"
    )?;
    for step in Step::all() {
        let result = holding.step_result(price, interval, step);
        println!(rt; "    step {step:?}: {result} cents")?;
    }
    let margin = desk.margin();
    println!(rt; "  The least of the ten is the margin of account 0: {margin} cents.")?;
    Ok(())
}
