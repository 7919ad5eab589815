// Rows and lists made from the columns of lines.
ghost use Rattle.std.specs.Prelude.{◌≡◌, ◌<◌, length};
ghost use Rattle.sheet.specs.Laid.{command_in, laid_row};
ghost use Rattle.sheet.specs.Reading.{atom_for, command_for, open_behind, with_atom};
ghost use Rattle.sheet.specs.Routines.{list_of};

use crate::drafts::Open;
use crate::kinds::Kind;
use crate::rows::{AtomList, Row};
use heap::Atom;
use layout::Six;

// The atom of a line; of a line that is none, whatever. Kind and columns are the line's, once it is checked; a struct of both would be made for the one call of `add`.
pub(crate) fn atom_for(kind: Kind, columns: &Six<u8>) -> Atom
    ensures { result ≡ atom_for kind columns.now }
{
    let Six { first, second, .. } = *columns;
    match kind {
        Kind::Unequal => Atom::Neq {
            left: first,
            right: second,
        },
        Kind::Cell => Atom::Next {
            cell: first,
            link: second,
        },
        Kind::Segment => Atom::Lseg {
            from: first,
            to: second,
        },
        _ => Atom::Eq {
            left: first,
            right: second,
        },
    }
}

// The row of a line, its list still empty; of a line that is none, `Done`.
pub(crate) fn row_for(kind: Kind, columns: &Six<u8>) -> Row
    ensures { result ≡ laid_row (command_for kind columns.now) }
{
    let Six {
        first,
        second,
        third,
        fourth,
        fifth,
        sixth,
    } = *columns;
    match kind {
        Kind::Set => Row::Set {
            into: first,
            from: second,
        },
        Kind::Load => Row::Load {
            into: first,
            cell: second,
        },
        Kind::Store => Row::Store {
            cell: first,
            link: second,
        },
        Kind::New => Row::New { into: first },
        Kind::Free => Row::Free { cell: first },
        Kind::Jump => Row::Jump { to: first },
        Kind::Branch => Row::Branch {
            left: first,
            right: second,
            to: third,
        },
        Kind::Cut => Row::Cut {
            list: AtomList::EMPTY,
        },
        Kind::Call => Row::Call {
            into: first,
            routine: second,
            first: third,
            second: fourth,
            first_ghost: fifth,
            second_ghost: sixth,
            frame: AtomList::EMPTY,
        },
        _ => Row::Done,
    }
}

impl Row {
    // The list behind the row among so many variables, if the row has one.
    pub(crate) fn open(&self, variables: u8) -> Option<Open>
        requires { self.now ≡ laid_row (command_in self.now) }
        ensures { result ≡ open_behind variables (command_in self.now) }
    {
        match self {
            Row::Cut { list } => Some(Open {
                named: variables,
                except: 0,
                count: usize::from(list.count),
            }),
            Row::Call { into, frame, .. } => Some(Open {
                named: variables,
                except: *into,
                count: usize::from(frame.count),
            }),
            _ => None,
        }
    }

    // One atom more in the list behind the row.
    pub(crate) fn push(&mut self, atom: Atom)
        requires lies { self.old ≡ laid_row (command_in self.old) }
        requires room { length (list_of (command_in self.old)) < 8 }
        ensures { self.new ≡ laid_row (with_atom atom (command_in self.old)) }
    {
        match self {
            Row::Cut { list } => list.push(atom),
            Row::Call { frame, .. } => frame.push(atom),
            _ => {}
        }
    }
}
