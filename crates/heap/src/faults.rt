// Refusals: every number that a call can answer, with its place.
ghost use Rattle.std.specs.Prelude.{◌≡◌, Some};
ghost use Rattle.heap.specs.Faults.{made_by, number, plain, refused_text, report};

use std::error::Error;
use std::fmt;

// Why a call refuses. `number` in specs/Faults gives each case the number that stands beside it here.
#[derive(Clone, Copy, PartialEq, Eq, Debug)]
pub enum Problem {
    TextLength = 101,
    Layout = 102,
    NotDue = 111,
    Operand = 112,
    AtomCount = 113,
    Target = 114,
    Weight = 115,
    OwnNumber = 121,
    ShelfFull = 122,
    Callee = 123,
    Contract = 124,
    DeadCell = 131,
    FalseList = 132,
    NotLive = 141,
    LinkRange = 142,
    NoCell = 143,
    ListLength = 144,
    NoPosition = 151,
    NoFrame = 152,
    BadValue = 153,
    BeforeList = 154,
    Budget = 155,
    LentMemory = 156,
}

// A refusal: why, at which place, and, where they apply, the kind of the store, the routine and the row; those that do not are 0.
// 0 and no Option where one does not apply: a fault means five numbers, and who runs a routine adds its number and row to a store's fault.
#[derive(Clone, Copy, PartialEq, Eq, Debug)]
pub struct Fault {
    pub problem: Problem,
    pub place: usize,
    // a number and no enum: each make of store, also one that is not of this repository, has a number of its own
    pub kind: u16,
    pub routine: u8,
    pub row: u8,
}

impl Fault {
    // A fault that has a place and nothing else.
    pub fn at(problem: Problem, place: usize) -> Fault
        ensures { report result ≡ plain (number problem) place }
    {
        Fault::of_store(0, problem, place)
    }

    // A fault of a store, which has a place and the number of the store's kind.
    pub fn of_store(kind: u16, problem: Problem, place: usize) -> Fault
        ensures { report result ≡ made_by kind (number problem) place }
    {
        Fault {
            problem,
            place,
            kind,
            routine: 0,
            row: 0,
        }
    }

    // The number that stands for the problem.
    pub fn number(&self) -> u16
        ensures { result ≡ (report self.now).number }
    {
        self.problem as u16
    }
}

impl fmt::Display for Fault {
    ghost output = { λ f. Some (refused_text (report f)) };

    fn fmt<W: fmt::Write>(&self, f: &mut fmt::Formatter<W>) -> fmt::Result {
        write!(
            f,
            "refused: {} at {}, kind {}",
            self.number(),
            self.place,
            self.kind
        )
    }
}

impl Error for Fault {}
