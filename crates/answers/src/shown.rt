// A line to be printed.
ghost use Rattle.std.specs.Prelude.{◌≡◌, ◌≤◌, take};
ghost use Rattle.answers.specs.Padded.{padded};

// How long a line may be.
pub(crate) const WIDTH: usize = 70;

// The bytes of one line, its end included, and zeros behind them.
// An array and a count: an `ArrayVec` is not `Copy`, and what holds a struct with a model is not copied each time it is used.
#[derive(Clone, Copy)]
pub struct Shown {
    pub(crate) bytes: [u8; WIDTH],
    pub(crate) count: usize,
    ghost few: { count ≤ 70 },
    ghost filled: { bytes ≡ padded (take count bytes) },
}
