// Reads one sheet from standard input and prints one line: what was read, or the number and place of what is wrong.
#![tactic(auto)]

use answers::line_for;
use std::io::{Read, Write};

// One byte more than the longest text, so that a longer one is told from it.
const ENOUGH: u64 = 3568;

fn run(rt: &HostRuntime) -> anyhow::Result<()> {
    let mut text = Vec::new(rt.alloc());
    let _count = rt.stdin().take(ENOUGH).read_to_end(&mut text)?;
    let line = line_for(text.as_slice());
    rt.stdout().write_all(line.text())?;
    Ok(())
}

fn main(rt: HostRuntime) -> anyhow::Result<()> {
    run(&rt)
}
