// A ledger over lent records: each record in use is a cell, by its address and link.
ghost use Rattle.std.specs.Prelude.{◌≡◌, ◌≤◌, true};
ghost use Rattle.ledger.specs.Records.{sound, usable};

use crate::records::Record;

pub mod calls;
pub mod making;

// The most records that a ledger can have.
const MOST: usize = 512;

// The highest address of a cell.
const TOP: u16 = 4095;

// `last` is the address that was given last, so that the next one is looked for behind it.
#[derive(Drop)]
pub struct Ledger<'a> {
    records: &'a mut [Record],
    last: u16,
    ghost kept: { sound (usable records.now) ≡ true },
    ghost low: { 1 ≤ last },
    ghost high: { last ≤ 4095 },
}
