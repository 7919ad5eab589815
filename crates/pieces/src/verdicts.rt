// What the checker says of a routine.
ghost use Rattle.std.specs.Prelude.{◌≡◌};
ghost use Rattle.heap.specs.Faults.{report, plain};
ghost use Rattle.pieces.specs.Flaws.{flaw_number, flaw_row};

use heap::{Fault, Problem};

// Why a routine is refused; `Judged` in specs/Pieces says what each case means.
#[derive(Clone, Copy, PartialEq, Eq, Debug)]
pub enum Flaw {
    // the lowest row at which some run of some piece touches a cell that is not live
    DeadCell { row: usize },
    // no run does; the lowest row that closes a piece with its list false
    FalseList { row: usize },
}

// The verdict on a routine: every piece is right, or why not.
pub type Verdict = Result<(), Flaw>;

impl Flaw {
    // The row at which it is.
    pub fn row(&self) -> usize
        ensures { result ≡ flaw_row self.now }
    {
        match self {
            Flaw::DeadCell { row } | Flaw::FalseList { row } => *row,
        }
    }
}

impl From<Flaw> for Fault {
    ghost from_gives = { λ flaw fault. report fault ≡ plain (flaw_number flaw) (flaw_row flaw) };

    // The number of the flaw, and its row as the place.
    fn from(flaw: Flaw) -> Fault {
        match flaw {
            Flaw::DeadCell { row } => Fault::at(Problem::DeadCell, row),
            Flaw::FalseList { row } => Fault::at(Problem::FalseList, row),
        }
    }
}
