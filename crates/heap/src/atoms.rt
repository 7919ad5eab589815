// The four atoms of an assertion.
ghost use Rattle.std.specs.Prelude.{◌≡◌};

// A name of a sheet: 0 is nil, 1 to 6 are variables, 7 and 8 are ghosts. A number and no enum: it is what the sheet's text has, and an index of values.
pub type Name = u8;

// One statement about the values of two names, or about a part of the heap between them.
#[derive(Clone, Copy, PartialEq, Eq, Debug)]
pub enum Atom {
    // the values are equal
    Eq { left: Name, right: Name },
    // the values are different
    Neq { left: Name, right: Name },
    // the one cell `cell`, whose link is `link`
    Next { cell: Name, link: Name },
    // the cells from `from` along the links up to `to`, which is none of them
    Lseg { from: Name, to: Name },
}

// Nil equals nil: what stands in an unused place of a list.
impl Default for Atom {
    ghost use Rattle.heap.specs.declared.atoms.Atom.{Atom};

    ghost is_default = { λ a. a ≡ Atom.Eq 0 0 };

    fn default() -> Atom {
        Atom::Eq { left: 0, right: 0 }
    }
}
