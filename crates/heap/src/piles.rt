// A pile over lent memory: the last entry in is the first out.
ghost use Rattle.std.specs.Prelude.{◌≤◌, length};

mod methods;

// Why a push is refused: every slot is in use.
#[derive(Clone, Copy, PartialEq, Eq, Debug)]
pub struct Full;

// The first `len` of the lent slots, the last of them on top. A length beside lent memory and no `Vec`, since nothing here allocates.
#[derive(Drop)]
pub struct Pile<'a, T> {
    slots: &'a mut [T],
    len: usize,
    ghost ok: { len ≤ length slots.now },
}
