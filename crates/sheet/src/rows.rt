// Rows and lists of atoms, in memory of a fixed size.
ghost use Rattle.std.specs.Prelude.{◌≡◌, ◌<◌, [], ◌∷◌, ◌++◌, length};
ghost use Rattle.sheet.specs.Laid.{laid_list, list_in};

use heap::{Atom, Name};

// How many atoms a list holds at most.
pub const LIST: usize = 8;

// How many rows a sheet has at most.
pub const ROWS: usize = 40;

// How many atoms a sheet has at most.
pub const ATOMS: u8 = 80;

// The atoms of one assertion; behind the last stands `Eq` of nil and nil, so that a list lies in one way only.
// An array and a count, and no `ArrayVec`: that is not `Copy`, and rows are copied and laid on piles.
#[derive(Clone, Copy, PartialEq, Eq, Debug)]
pub struct AtomList {
    pub atoms: [Atom; LIST],
    pub count: u8,
}

impl AtomList {
    // A list of no atoms.
    pub(crate) const EMPTY: AtomList = AtomList {
        atoms: [Atom::Eq { left: 0, right: 0 }; LIST],
        count: 0,
    };

    // One atom more, for which there is room.
    pub(crate) fn push(&mut self, atom: Atom)
        requires lies { self.old ≡ laid_list (list_in self.old) }
        requires room { length (list_in self.old) < 8 }
        ensures { self.new ≡ laid_list (list_in self.old ++ atom ∷ []) }
    {
        self.atoms[usize::from(self.count)] = atom;
        self.count += 1;
    }
}

// What a row does. Rows are numbered from 1.
#[derive(Clone, Copy, PartialEq, Eq, Debug)]
pub enum Row {
    // `into` becomes the value of `from`
    Set {
        into: Name,
        from: Name,
    },
    // `into` becomes the link of the cell
    Load {
        into: Name,
        cell: Name,
    },
    // the link of the cell becomes the value of `link`
    Store {
        cell: Name,
        link: Name,
    },
    // `into` becomes the address of a new cell
    New {
        into: Name,
    },
    // the cell is freed
    Free {
        cell: Name,
    },
    Jump {
        to: u8,
    },
    // to row `to` if the values are equal
    Branch {
        left: Name,
        right: Name,
        to: u8,
    },
    // an assertion between two pieces
    Cut {
        list: AtomList,
    },
    // `into` becomes the result of a routine; the frame is what the call leaves alone
    Call {
        into: Name,
        routine: u8,
        first: Name,
        second: Name,
        first_ghost: Name,
        second_ghost: Name,
        frame: AtomList,
    },
    // the end; the result is variable 1
    Done,
}

// The end: what stands in an unused place of a sheet.
impl Default for Row {
    ghost use Rattle.sheet.specs.declared.rows.Row.{Row};

    ghost is_default = { λ r. r ≡ Row.Done };

    fn default() -> Row {
        Row::Done
    }
}
