// A sheet that is being read, line by line.
ghost use Rattle.std.specs.Prelude.{◌≡◌, ◌≤◌};
ghost use Rattle.sheet.specs.Laid.{laid, routine_in};
ghost use Rattle.sheet.specs.Routines.{total};

use crate::sheets::Body;

// How far the reading has come.
#[derive(Clone, Copy, PartialEq, Eq, Debug)]
pub enum Stage {
    // nothing is read
    Start,
    // the head is read
    Headed,
    // the before list is being read
    BeforeList,
    // the after list or the rows are being read
    Rows,
}

// The list to which an atom line would belong: which names it may use, and how many atoms it has. `except` is 0 for none, as in `Scope`.
#[derive(Clone, Copy, PartialEq, Eq, Debug)]
pub struct Open {
    pub named: u8,
    pub except: u8,
    pub count: usize,
}

// What the lines so far say.
#[derive(Drop)]
pub struct Draft {
    pub stage: Stage,
    pub promised: u8,
    pub atoms: u8,
    pub body: Body,
    ghost counted: { atoms ≡ total (routine_in body) },
    ghost few: { promised ≤ 40 },
    ghost whole: { body ≡ laid (routine_in body) },
}
