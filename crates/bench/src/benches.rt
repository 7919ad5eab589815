// A bench over lent words: word a - 1 is cell a, and 65,535 says that it is dead.
ghost use Rattle.std.specs.Prelude.{◌≤◌, length};
ghost use Rattle.bench.specs.Words.{LiveAbove, size};

pub mod calls;
pub mod making;

// The word of a dead cell: a number and no `None`, since that is the layout of the lent words.
const DEAD: u16 = 65535;

// The most words that a bench can have.
const MOST: usize = 4095;

// All cells above `hint` are live, so that a take looks for a dead one from there down.
#[derive(Drop)]
pub struct Bench<'a> {
    words: &'a mut [u16],
    hint: usize,
    ghost within: { hint ≤ size (length words.now) },
    ghost above: { LiveAbove words.now hint },
}
