#![tactic(auto)]
// Reads one day sheet from standard input and writes its answers to standard output.
use std::io::Read;

fn run(rt: &HostRuntime) -> anyhow::Result<()> {
    let mut sheet = Vec::new(rt.alloc());
    rt.stdin()
        .take(day_sheet::MOST_READ)
        .read_to_end(&mut sheet)?;
    let answered = day_sheet::answer(rt.alloc(), sheet.as_slice())?;
    let text = answered.text.as_str();
    print!(rt; "{text}")?;
    Ok(())
}

fn main(rt: HostRuntime) -> anyhow::Result<()> {
    run(&rt)
}
