// Making, filling and looking into sheets.
ghost use Rattle.std.specs.Prelude.{◌≡◌, ◌≤◌, map, length, Ok, Err, MatchResult};
ghost use Rattle.heap.specs.Faults.{report};
ghost use Rattle.sheet.specs.Routines.{Routine};
ghost use Rattle.sheet.specs.Written.{text_of};
ghost use Rattle.sheet.specs.Formed.{WellFormed};
ghost use Rattle.sheet.specs.Laid.{laid, laid_list, laid_row};
ghost use Rattle.sheet.specs.Reading.{reading};
ghost use Rattle.sheet.specs.Laws.{First};
ghost use Rattle.sheet.specs.Sheets.{new_routine, head_of, said, answered, filled_by};

use crate::reading::read_body;
use crate::rows::{AtomList, Row};
use crate::sealed::Sheet;
use crate::sheets::{Body, Head};
use heap::Fault;

fn new_body() -> Body
    ensures { result ≡ laid new_routine }
{
    let mut body = Body::empty(Head {
        variables: 1,
        ..Head::default()
    });
    body.rows.push(Row::Done);
    body
}

impl Sheet {
    // Routine 0 with one variable, no arguments or ghosts, empty lists and the single row 30.
    pub fn new() -> Sheet
        ensures { result ≡ new_routine }
    {
        Sheet { body: new_body() }
    }

    // Fills the sheet from a text; or answers the first thing that is wrong with the text, and leaves the sheet as it was.
    pub fn read(&mut self, text: &[u8]) -> Result<(), Fault>
        ensures answer { said result ≡ answered (reading text.now) }
        ensures sheet { self.new ≡ filled_by self.old (reading text.now) }
        ensures reads { MatchResult result (λ _. reading text.now ≡ Ok self.new) (λ f. reading text.now ≡ Err (report f)) }
        ensures written { MatchResult result (λ _. WellFormed self.new × (text.now ≡ text_of self.new)) (λ f. First text.now (report f)) }
        ensures every { (R : Routine) → WellFormed R → text.now ≡ text_of R → (said result ≡ Ok tt) × (self.new ≡ R) }
        ensures formed { WellFormed self.new }
    {
        // what the type promises of the sheet is known of it from here on, also where the text is refused
        let _kept = &self.body;
        self.body = read_body(text)?;
        Ok(())
    }

    // The routine's number and sizes.
    pub fn head(&self) -> Head
        ensures head { result ≡ head_of self.now }
        ensures formed { WellFormed self.now }
    {
        self.body.head
    }

    // What holds where the routine begins.
    pub fn before(&self) -> &AtomList
        ensures before { result.now ≡ laid_list self.now.before }
        ensures formed { WellFormed self.now }
    {
        &self.body.before
    }

    // What holds where the routine ends.
    pub fn after(&self) -> &AtomList
        ensures after { result.now ≡ laid_list self.now.after }
        ensures formed { WellFormed self.now }
    {
        &self.body.after
    }

    // The rows in their order.
    #[tactic(auto, using(crate::proofs::LaidBack::rows_laid))]
    pub fn rows(&self) -> &[Row]
        ensures rows { result.now ≡ map laid_row self.now.rows }
        ensures few { length result.now ≤ 40 }
        ensures formed { WellFormed self.now }
    {
        self.body.rows.as_slice()
    }
}
