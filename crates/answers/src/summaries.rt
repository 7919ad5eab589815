// What a sheet holds, in one line.
ghost use Rattle.std.specs.Prelude.{◌≡◌, ◌+◌, ◌≤◌, ◌++◌, length};
ghost use Rattle.layout.specs.Columns.{column_of};
ghost use Rattle.sheet.specs.Reading.{reading};
ghost use Rattle.answers.specs.Shown.{shown};
ghost use Rattle.answers.specs.Summaries.{summary_line, line_for, count_row, count_rows};

use crate::lines::refusal;
use crate::shown::Shown;
use layout::column;
use sheet::{Row, Sheet};

// How many atoms stand behind a row.
fn atoms_behind(row: &Row) -> u16
    ensures count { result ≡ count_row row.now }
    ensures few { result ≤ 255 }
{
    match row {
        Row::Cut { list } => u16::from(list.count),
        Row::Call { frame, .. } => u16::from(frame.count),
        _ => 0,
    }
}

fn atoms_in(rows: &[Row]) -> u16
    requires { length rows.now ≤ 40 }
    ensures count { result ≡ count_rows rows.now }
    ensures few { result ≤ 10200 }
{
    // a loop: with `map` and `sum` the count proves, but not the bound that the caller's addition needs
    let mut sum = 0;
    for row in rows {
        sum += atoms_behind(row);
    }
    sum
}

impl Shown {
    // A word, and a number in a column behind it.
    fn add_item(&mut self, label: &[u8], n: u16)
        requires { self.old.count + length label.now + 4 ≤ 70 }
        ensures text { shown self.new ≡ shown self.old ++ (label.now ++ column_of n) }
        ensures count { self.new.count ≡ self.old.count + (length label.now + 4) }
    {
        self.add(label);
        self.add(&column(n));
    }
}

// The routine's number, its variables, arguments and ghosts, its rows and its atoms.
pub fn summary(sheet: &Sheet) -> Shown
    ensures { shown result ≡ summary_line sheet.now }
{
    let head = sheet.head();
    let rows = sheet.rows();
    let lists = u16::from(sheet.before().count) + u16::from(sheet.after().count);
    let atoms = lists + atoms_in(rows);
    let mut line = Shown::empty();
    line.add_item(b"routine", u16::from(head.own));
    line.add_item(b" variables", u16::from(head.variables));
    line.add_item(b" arguments", u16::from(head.arguments));
    line.add_item(b" ghosts", u16::from(head.ghosts));
    line.add_item(b" rows", rows.len() as u16);
    line.add_item(b" atoms", atoms);
    line.add(b"\n");
    line
}

// The line for a text: what was read, or the number and place of what is wrong with it.
pub fn line_for(text: &[u8]) -> Shown
    ensures { shown result ≡ line_for (reading text.now) }
{
    let mut sheet = Sheet::new();
    match sheet.read(text) {
        Ok(()) => summary(&sheet),
        Err(fault) => refusal(&fault),
    }
}
