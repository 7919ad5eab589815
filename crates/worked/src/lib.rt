// Thirteen worked sheets: specs/Worked has the text of each, the routine that it reads as, and the verdict on it.
#![tactic(auto)]

ghost use Rattle.std.specs.Prelude.{◌≡◌, length};
ghost use Rattle.worked.specs.Worked.{sheets, WorkedSheets};

fn how_many() -> usize
    ensures { result ≡ length sheets }
{
    13
}

// How many there are. Each text reads as its routine, and the verdict given is the one on that routine, alone on a shelf.
pub fn worked_sheets() -> usize
    ensures count { result ≡ length sheets }
    ensures verdicts { WorkedSheets }
{
    how_many()
}
