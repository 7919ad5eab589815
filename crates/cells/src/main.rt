// One task over each make of store: three cells linked into a list, the middle one let go, another taken in its place.
#![tactic(auto)]

use bench::Bench;
use ledger::{Ledger, Record};
use store::Store;
use walk::follow;

fn taken<S: Store>(rt: &impl Print, store: &mut S) -> anyhow::Result<u32> {
    let address = store.take()?;
    println!(rt; "  take gives {address}")?;
    Ok(u32::from(address))
}

fn linked<S: Store>(rt: &impl Print, store: &mut S, from: u32, to: u32) -> anyhow::Result<()> {
    store.write(from, to)?;
    println!(rt; "  {from} links to {to}")?;
    Ok(())
}

fn freed<S: Store>(rt: &impl Print, store: &mut S, address: u32) -> anyhow::Result<()> {
    store.free(address)?;
    println!(rt; "  {address} is free")?;
    Ok(())
}

// A list of three cells, whose middle one is then replaced by another. A refusal ends it, with its number, place and kind.
fn task<S: Store>(rt: &impl Print, store: &mut S) -> anyhow::Result<()> {
    let first = taken(rt, store)?;
    let second = taken(rt, store)?;
    let third = taken(rt, store)?;
    linked(rt, store, first, second)?;
    linked(rt, store, second, third)?;
    freed(rt, store, second)?;
    let other = taken(rt, store)?;
    linked(rt, store, first, other)?;
    linked(rt, store, other, third)?;
    let cells = follow(store, first, 100);
    let left = store.left();
    println!(rt; "  a list of {cells} cells from {first}; {left} cells left")?;
    Ok(())
}

fn run(rt: &impl Print) -> anyhow::Result<()> {
    let mut words = [0u16; 4];
    println!(rt; "bench of 4 words")?;
    task(rt, &mut Bench::over(&mut words))?;
    let mut records = [Record::UNUSED; 4];
    println!(rt; "ledger of 4 records")?;
    task(rt, &mut Ledger::over(&mut records))
}

fn main(rt: HostRuntime) -> anyhow::Result<()> {
    run(&rt)
}
