// The lines of a whole text.
ghost use Rattle.std.specs.Prelude.{◌≡◌, ◌≤◌, length, Ok, Err, Some, None, MatchResult};
ghost use Rattle.heap.specs.Faults.{plain, report};
ghost use Rattle.layout.specs.Laws.{TextOf, Refused};
ghost use Rattle.layout.specs.Lines.{numbers_in};
ghost use Rattle.layout.specs.Texts.{lines_of};

use crate::lines::{LINE, Numbers, parse};
use crate::scanned::{LINES, Scanned};
use arrayvec::ArrayVec;
use heap::{Fault, Problem};

impl Scanned {
    // The numbers of each line, in their order.
    pub fn lines(&self) -> &[Numbers]
        ensures lines { result.now ≡ self.now }
        ensures few { length result.now ≤ 123 }
    {
        self.lines.as_slice()
    }
}

// The numbers of the line that has this place; 102 if its layout is broken.
fn numbers_of(bytes: &[u8; LINE], place: usize) -> Result<Numbers, Fault>
    ensures { MatchResult result (λ n. numbers_in bytes.now ≡ Some n) (λ f. (numbers_in bytes.now ≡ None) × (report f ≡ plain 102 place)) }
{
    parse(bytes).ok_or(Fault::at(Problem::Layout, place))
}

// Reads every line of a text: 101 for its length, else 102 at the first line whose layout is broken.
pub fn scan(text: &[u8]) -> Result<Scanned, Fault>
    ensures defined { MatchResult result (λ s. lines_of text.now ≡ Ok s) (λ f. lines_of text.now ≡ Err (report f)) }
    ensures written { MatchResult result (λ s. TextOf text.now s) (λ f. Refused text.now (report f)) }
{
    if text.is_empty() || text.len() % LINE != 0 || text.len() > LINES * LINE {
        return Err(Fault::at(Problem::TextLength, 0));
    }
    let (whole, _) = text.as_chunks::<LINE>();
    let mut lines = ArrayVec::new();
    for (k, bytes) in whole.iter().enumerate() {
        lines.push(numbers_of(bytes, k + 1)?);
    }
    Ok(Scanned { lines })
}
