// The sheet as a value.
use crate::rows::{AtomList, ROWS, Row};
use arrayvec::ArrayVec;

// A routine's number, and how many variables, arguments and ghosts it has.
#[derive(Clone, Copy, PartialEq, Eq, Debug, Default)]
pub struct Head {
    pub own: u8,
    pub variables: u8,
    pub arguments: u8,
    pub ghosts: u8,
}

// The contents of a sheet.
#[derive(Drop)]
pub struct Body {
    pub head: Head,
    pub before: AtomList,
    pub after: AtomList,
    pub rows: ArrayVec<Row, ROWS>,
}
