// The lines of a text that was scanned.
use crate::lines::Numbers;
use arrayvec::ArrayVec;
use std::marker::Model;

// How many lines a text has at most: the head, two list lines, 40 rows and 80 atoms.
pub(crate) const LINES: usize = 123;

// The numbers of each line, in their order; contracts see it as their list.
#[derive(Drop)]
pub struct Scanned {
    pub(crate) lines: ArrayVec<Numbers, LINES>,
}

impl Model for Scanned {
    ghost use Rattle.std.specs.Prelude.{List};
    ghost use Rattle.layout.specs.declared.lines.Numbers.{Numbers as Line};

    ghost Value = { List Line };

    ghost view = { λ s. s.lines.items };
}
