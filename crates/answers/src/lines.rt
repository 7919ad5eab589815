// One line of text, piece by piece.
ghost use Rattle.std.specs.Prelude.{◌≡◌, ◌+◌, ◌≤◌, [], ◌++◌, length};
ghost use Rattle.heap.specs.Faults.{report};
ghost use Rattle.answers.specs.Shown.{answer_line, shown};

use crate::shown::{Shown, WIDTH};
use heap::Fault;
use layout::column;

impl Shown {
    // The bytes to be printed.
    pub fn text(&self) -> &[u8]
        ensures bytes { result.now ≡ shown self.now }
        ensures few { length result.now ≤ 70 }
    {
        &self.bytes[0..self.count]
    }

    // A line without a byte.
    pub(crate) fn empty() -> Shown
        ensures text { shown result ≡ [] }
        ensures count { result.count ≡ 0 }
    {
        Shown {
            bytes: [0; WIDTH],
            count: 0,
        }
    }

    // One piece more, for which there is room.
    pub(crate) fn add(&mut self, part: &[u8])
        requires { self.old.count + length part.now ≤ 70 }
        ensures text { shown self.new ≡ shown self.old ++ part.now }
        ensures count { self.new.count ≡ self.old.count + length part.now }
    {
        let end = self.count + part.len();
        self.bytes[self.count..end].copy_from_slice(part);
        self.count = end;
    }
}

// Two columns: a number and a place.
pub fn answer(number: u16, place: usize) -> Shown
    ensures { shown result ≡ answer_line number place }
{
    let mut line = Shown::empty();
    line.add(&column(number));
    line.add(&column(place.min(10000) as u16));
    line.add(b"\n");
    line
}

// The line of a refusal: its number and its place.
pub fn refusal(fault: &Fault) -> Shown
    ensures { shown result ≡ answer_line (report fault.now).number (report fault.now).place }
{
    answer(fault.number(), fault.place)
}
