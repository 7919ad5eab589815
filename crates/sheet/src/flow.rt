// Where the rows of a sheet lead, and how much its pieces weigh.
ghost use Rattle.std.specs.Prelude.{◌≡◌, ℕ, suc, ◌+◌, ◌-◌, ◌<◌, ◌≤◌, ◌&&◌, ltb, length, if◌then◌else◌, nat_lt, slice_index};
ghost use Rattle.sheet.specs.Flow.{row_at, is_cut, opens, ends, strays, bad_target, misplaced, InPlace, Most};
ghost use Rattle.sheet.specs.Laid.{command_in};
ghost use Rattle.sheet.specs.Written.{command_kind};
ghost use Rattle.sheet.specs.Reading.{first_misplaced, heavy_piece, weights as weights_from};
ghost use Rattle.sheet.specs.ModelReading.{rows_in, weighs_in};

use crate::kinds::{Kind, weight_for};
use crate::rows::Row;
use crate::sheets::Body;

// How much a piece weighs at most.
const WEIGHT: u8 = 8;

impl From<&Row> for Kind {
    ghost from_gives = { λ row kind. kind ≡ command_kind (command_in row.now) };

    fn from(row: &Row) -> Kind {
        match row {
            Row::Set { .. } => Kind::Set,
            Row::Load { .. } => Kind::Load,
            Row::Store { .. } => Kind::Store,
            Row::New { .. } => Kind::New,
            Row::Free { .. } => Kind::Free,
            Row::Jump { .. } => Kind::Jump,
            Row::Branch { .. } => Kind::Branch,
            Row::Cut { .. } => Kind::Cut,
            Row::Call { .. } => Kind::Call,
            Row::Done => Kind::Done,
        }
    }
}

impl Row {
    fn is_cut(&self) -> bool
        ensures { result ≡ is_cut (command_in self.now) }
    {
        matches!(self, Row::Cut { .. })
    }

    // Whether a piece opens behind the row.
    fn opens_piece(&self) -> bool
        ensures { result ≡ opens (command_in self.now) }
    {
        matches!(self, Row::Cut { .. } | Row::Call { .. })
    }

    // Whether a piece opens behind the row and weighs too much.
    fn is_heavy(&self, weight: u8) -> bool
        ensures { result ≡ (opens (command_in self.now) && nat_lt 8 weight) }
    {
        self.opens_piece() && weight > WEIGHT
    }

    // Whether the row may be the last.
    fn may_end(&self) -> bool
        ensures { result ≡ ends (command_in self.now) }
    {
        matches!(self, Row::Jump { .. } | Row::Done)
    }
}

impl Body {
    // Whether row r, counted from 1, is a cut; no row lies behind the last.
    fn is_cut_at(&self, r: usize) -> bool
        ensures { result ≡ is_cut (row_at (rows_in self.now) r) }
    {
        let row = self.rows.as_slice().get(r.saturating_sub(1));
        row.is_some_and(Row::is_cut)
    }

    // Whether row r is neither later than row i nor a cut.
    fn leads_astray(&self, i: usize, r: usize) -> bool
        ensures { result ≡ strays (rows_in self.now) i r }
    {
        !(i < r || self.is_cut_at(r))
    }

    // Whether a row goes from i to a wrong place.
    fn has_bad_target(&self, i: usize, row: &Row) -> bool
        ensures { result ≡ bad_target (rows_in self.now) i (command_in row.now) }
    {
        match row {
            Row::Jump { to } | Row::Branch { to, .. } => self.leads_astray(i, usize::from(*to)),
            _ => false,
        }
    }

    // Whether row i goes to a wrong place, or is the last and may not be.
    fn is_misplaced(&self, i: usize, row: &Row) -> bool
        requires { command_in row.now ≡ row_at (rows_in self.now) i }
        ensures { result ≡ misplaced (rows_in self.now) i }
    {
        self.has_bad_target(i, row) || i == self.rows.len() && !row.may_end()
    }

    // The lowest row that is misplaced. A loop of its own, as in `heavy_piece`: a closure for the test would need more said of it than the loop does.
    pub(crate) fn first_misplaced(&self) -> Option<usize>
        ensures { result ≡ first_misplaced (rows_in self.now) 1 (rows_in self.now) }
    {
        for (i, row) in self.rows.as_slice().iter().enumerate() {
            if self.is_misplaced(i + 1, row) {
                return Some(i + 1);
            }
        }
        None
    }
}

// One entry for each row, and one behind the last.
const LANDINGS: usize = 41;

// The entry of a row; nothing behind the last. The weights and a row's number go through three functions; a struct of both would be made in one place, at each turn of its loop.
fn entry_at(weights: &[u8], k: usize) -> u8
    ensures { result ≡ slice_index weights.now k }
{
    weights.get(k).copied().unwrap_or(0)
}

// What a jump from row i to row r adds: the weight from r on if r is later, else nothing, since a cut closes the piece.
fn weight_ahead(weights: &[u8], i: usize, r: usize) -> u8
    ensures { result ≡ (if ltb i r then slice_index weights.now (r - 1) else 0) }
{
    if i < r { entry_at(weights, r - 1) } else { 0 }
}

// The most weight on any way from row i on, which is `row`, where `weights` has it for the rows behind.
fn weight_of(row: &Row, i: usize, weights: &[u8]) -> u8
    requires { slice_index weights.now i ≤ 40 }
    ensures { result ≡ weighs_in (command_in row.now) i weights.now }
{
    match row {
        Row::Jump { to } => weight_ahead(weights, i, usize::from(*to)),
        Row::Branch { to, .. } => entry_at(weights, i).max(weight_ahead(
            weights,
            i,
            usize::from(*to),
        )),
        Row::Cut { .. } | Row::Call { .. } | Row::Done => 0,
        _ => weight_for(Kind::from(row)) + entry_at(weights, i),
    }
}

impl Body {
    // The most weight on any way from each row on, by one pass from the last row back.
    fn weights(&self) -> [u8; LANDINGS]
        ensures size { length result ≡ 41 }
        ensures entries { (k : ℕ) → slice_index result k ≡ slice_index (weights_from 1 (rows_in self.now)) k }
        ensures most { InPlace (rows_in self.now) → (k : ℕ) → Most (rows_in self.now) (suc k) (slice_index result k) }
    {
        let mut found = [0; LANDINGS];
        let rows = self.rows.as_slice();
        // by index: with `iter().enumerate().rev()` the loop knows its place only by the iterator's state, and its invariant did not close
        for i in (0..rows.len()).rev() {
            found[i] = weight_of(&rows[i], i + 1, &found);
        }
        found
    }

    // The lowest opening whose piece weighs more than 8; 0 is the start.
    pub(crate) fn heavy_piece(&self) -> Option<usize>
        ensures { result ≡ heavy_piece (rows_in self.now) }
    {
        let found = self.weights();
        if found[0] > WEIGHT {
            return Some(0);
        }
        for (i, row) in self.rows.as_slice().iter().enumerate() {
            if row.is_heavy(found[i + 1]) {
                return Some(i + 1);
            }
        }
        None
    }
}
