// The sheet: contents that are well formed, which nothing outside can alter.
use crate::sheets::Body;
use std::marker::Model;

// The text of one list routine with its assertions, as a value; contracts see it as that routine.
// It is neither copied nor cloned: who hands a sheet on has it no more.
#[derive(Drop)]
pub struct Sheet {
    pub(crate) body: Body,
}

impl Model for Sheet {
    ghost use Rattle.sheet.specs.Routines.{Routine};
    ghost use Rattle.sheet.specs.Formed.{WellFormed};
    ghost use Rattle.std.specs.Prelude.{◌≡◌};
    ghost use Rattle.sheet.specs.Laid.{laid, routine_in};

    ghost Value = { Routine };

    ghost view = { λ s. routine_in s.body };

    ghost invariant = { λ s. WellFormed (routine_in s.body) × (s.body ≡ laid (routine_in s.body)) };

    // a routine lies in a sheet in one way, so that sheets of the same routine are equal
    ghost inverse = { λ R. record { body = laid R } };
}
