// Rows as the search does them.
ghost use Rattle.std.specs.Prelude.{◌≡◌};
ghost use Rattle.sheet.specs.Laid.{command_in};
ghost use Rattle.cases.specs.Steps.{step_of};

use heap::Name;
use sheet::Row;

// What a row does to a case; all rows that close a piece are one. Not the row itself: that carries a list of eight atoms, and a step is copied at each turn.
// `SmallStep` stands in the contracts: an enum has no ghost fields, and a struct around it would be opened at each match.
#[derive(Clone, Copy)]
pub enum Step {
    Set { into: Name, from: Name },
    Load { into: Name, cell: Name },
    Store { cell: Name, link: Name },
    New { into: Name },
    Free { cell: Name },
    Jump { to: u8 },
    Branch { left: Name, right: Name, to: u8 },
    Close,
}

impl From<&Row> for Step {
    ghost from_gives = { λ row step. step ≡ step_of (command_in row.now) };

    // The step of a row.
    fn from(row: &Row) -> Step {
        match row {
            Row::Set { into, from } => Step::Set {
                into: *into,
                from: *from,
            },
            Row::Load { into, cell } => Step::Load {
                into: *into,
                cell: *cell,
            },
            Row::Store { cell, link } => Step::Store {
                cell: *cell,
                link: *link,
            },
            Row::New { into } => Step::New { into: *into },
            Row::Free { cell } => Step::Free { cell: *cell },
            Row::Jump { to } => Step::Jump { to: *to },
            Row::Branch { left, right, to } => Step::Branch {
                left: *left,
                right: *right,
                to: *to,
            },
            Row::Cut { .. } | Row::Call { .. } | Row::Done => Step::Close,
        }
    }
}
