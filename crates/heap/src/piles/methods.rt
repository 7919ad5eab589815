// What a pile does. Each contract gives its entries, the top first, and says that it keeps the memory that was lent: its lender knows no more of it when the pile ends.
ghost use Rattle.std.specs.Prelude.{◌≡◌, [], MatchOption, MatchResult};
ghost use Rattle.heap.specs.Piles.{capacity, entries, Popped, Pushed, Refused, Spent};

use super::{Full, Pile};

// `T: Copy`, since an entry is stored into a lent slot and copied out of it.
impl<'a, T: Copy> Pile<'a, T> {
    // The empty pile in these slots; what they held does not matter.
    pub fn over(slots: &'a mut [T]) -> Pile<'a, T>
        ensures empty { entries result ≡ [] }
        ensures count { result.len ≡ 0 }
        ensures slots { result.slots.now ≡ slots.old }
        ensures lent { result.slots.ghost_name ≡ slots.entry.ghost_name }
    {
        Pile { slots, len: 0 }
    }

    // Lays an entry on top, if a slot is free.
    pub fn push(&mut self, x: T) -> Result<(), Full>
        ensures pushed { MatchResult result (λ _. Pushed x self.old self.new) (λ _. Refused self.old self.new) }
        ensures room { capacity self.new ≡ capacity self.old }
        ensures lent { self.new.slots.ghost_name ≡ self.old.slots.ghost_name }
    {
        if self.len >= self.slots.len() {
            return Err(Full);
        }
        self.slots[self.len] = x;
        self.len += 1;
        Ok(())
    }

    // Takes the top entry away, if there is one.
    pub fn pop(&mut self) -> Option<T>
        ensures popped { MatchOption result (Spent self.old self.new) (λ x. Popped x self.old self.new) }
        ensures slots { self.new.slots.now ≡ self.old.slots.now }
        ensures room { capacity self.new ≡ capacity self.old }
        ensures lent { self.new.slots.ghost_name ≡ self.old.slots.ghost_name }
    {
        if self.len == 0 {
            return None;
        }
        self.len -= 1;
        Some(self.slots[self.len])
    }
}

impl<T> Pile<'_, T> {
    // How many entries it holds.
    pub fn len(&self) -> usize
        ensures { result ≡ self.now.len }
    {
        self.len
    }

    // How many entries it can hold in all.
    pub fn room(&self) -> usize
        ensures { result ≡ capacity self.now }
    {
        self.slots.len()
    }
}
