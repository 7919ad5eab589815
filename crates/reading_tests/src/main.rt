// Reads every sheet that data/cases.txt names, and prints for each its name and the answer in two columns: 0 and 0, or the number and place of what is wrong.
#![tactic(auto)]

use answers::{Shown, answer, refusal, summary};
use sheet::Sheet;
use std::fs;
use std::io::Write;

fn print_line(rt: &HostRuntime, line: &Shown) -> anyhow::Result<()> {
    rt.stdout().write_all(line.text())?;
    Ok(())
}

// The answer to one text.
fn answered(sheet: &mut Sheet, text: &[u8]) -> Shown {
    match sheet.read(text) {
        Ok(()) => answer(0, 0),
        Err(fault) => refusal(&fault),
    }
}

// One line of the table: `= NAME NUMBER PLACE`.
fn case(rt: &HostRuntime, line: &str) -> anyhow::Result<()> {
    let mut words = line.split(' ');
    let _mark = words.next();
    let Some(name) = words.next() else {
        return Ok(());
    };
    print!(rt; "{name:<28}")?;
    let path = format!(in rt.alloc(); "{name}.sheet")?;
    let text = fs::read(rt, path.as_str())?;
    let line = answered(&mut Sheet::new(), text.as_slice());
    print_line(rt, &line)
}

// A text of a megabyte, a whole number of lines long.
fn megabyte(rt: &HostRuntime) -> anyhow::Result<()> {
    print!(rt; "{:<28}", "megabyte")?;
    let text = vec![in rt.alloc(); b' '; 1_048_582]?;
    let line = answered(&mut Sheet::new(), text.as_slice());
    print_line(rt, &line)
}

// A sheet that read one text and refused the next still holds the first.
fn kept(rt: &HostRuntime) -> anyhow::Result<()> {
    let mut sheet = Sheet::new();
    for name in ["reverse.sheet", "tab.sheet"] {
        let text = fs::read(rt, name)?;
        let line = answered(&mut sheet, text.as_slice());
        print_line(rt, &line)?;
    }
    print_line(rt, &summary(&sheet))
}

fn run(rt: &HostRuntime) -> anyhow::Result<()> {
    let table = fs::read_to_string(rt, "cases.txt")?;
    for line in table.as_str().lines() {
        case(rt, line)?;
    }
    megabyte(rt)?;
    kept(rt)
}

fn main(rt: HostRuntime) -> anyhow::Result<()> {
    run(&rt)
}
