// Reading: lines into a draft, and the tests of its rows.
ghost use Rattle.std.specs.Prelude.{◌≡◌, ◌≤◌, ◌&&◌, [], Ok, Err, MatchResult, ◌==◌, length};
ghost use Rattle.heap.specs.Faults.{report};
ghost use Rattle.sheet.specs.Laid.{laid, laid_list, routine_in};
ghost use Rattle.sheet.specs.Reading.{start, all_lines, complete, finished, reading};
ghost use Rattle.sheet.specs.ModelReading.{progress_in};

use crate::drafts::{Draft, Stage};
use crate::rows::AtomList;
use crate::sheets::{Body, Head};
use arrayvec::ArrayVec;
use heap::{Fault, Problem};
use layout::{Numbers, scan};

impl Body {
    // A body without rows and atoms.
    pub(crate) fn empty(head: Head) -> Body
        ensures head { result.head ≡ head }
        ensures before { result.before ≡ laid_list [] }
        ensures after { result.after ≡ laid_list [] }
        ensures rows { result.rows.items ≡ [] }
    {
        Body {
            head,
            before: AtomList::EMPTY,
            after: AtomList::EMPTY,
            rows: ArrayVec::new(),
        }
    }
}

// Nothing read yet.
fn started() -> Draft
    ensures { progress_in result ≡ start }
{
    Draft {
        stage: Stage::Start,
        promised: 0,
        atoms: 0,
        body: Body::empty(Head::default()),
    }
}

// All lines, or the first that is wrong.
fn drafted(lines: &[Numbers]) -> Result<Draft, Fault>
    ensures { MatchResult result (λ d. all_lines start 1 lines.now ≡ Ok (progress_in d)) (λ f. all_lines start 1 lines.now ≡ Err (report f)) }
{
    let mut draft = started();
    for (k, line) in lines.iter().enumerate() {
        // no `map_err` and `?`: with a closure that has the place in it the loop's invariant did not close
        if let Err(problem) = draft.take(line) {
            return Err(Fault::at(problem, k + 1));
        }
    }
    Ok(draft)
}

impl Draft {
    // Whether as many rows are read as were promised.
    fn is_complete(&self) -> bool
        ensures { result ≡ complete (progress_in self.now) }
    {
        matches!(self.stage, Stage::Rows) && self.body.rows.len() == usize::from(self.promised)
    }

    // What is tested behind the last line: that no row is missing, where the rows lead, how much the pieces weigh.
    fn finish(&self, lines: usize) -> Result<(), Fault>
        requires { lines ≤ 123 }
        ensures { MatchResult result (λ _. finished lines (progress_in self.now) ≡ Ok (routine_in self.now.body)) (λ f. finished lines (progress_in self.now) ≡ Err (report f)) }
    {
        if !self.is_complete() {
            return Err(Fault::at(Problem::NotDue, lines + 1));
        }
        if let Some(row) = self.body.first_misplaced() {
            return Err(Fault::at(Problem::Target, row));
        }
        if let Some(opening) = self.body.heavy_piece() {
            return Err(Fault::at(Problem::Weight, opening));
        }
        Ok(())
    }
}

// The contents of the sheet that a text writes.
pub(crate) fn read_body(text: &[u8]) -> Result<Body, Fault>
    ensures { MatchResult result (λ b. (reading text.now ≡ Ok (routine_in b)) × (b ≡ laid (routine_in b))) (λ f. reading text.now ≡ Err (report f)) }
{
    let scanned = scan(text)?;
    let lines = scanned.lines();
    let draft = drafted(lines)?;
    draft.finish(lines.len())?;
    let Draft { body, .. } = draft;
    Ok(body)
}
