// A store of cells: what every make of cell memory promises to the code above it.
#![tactic(auto)]

ghost use Rattle.std.specs.Prelude.{◌≡◌, ℕ, ◌-◌};
ghost use Rattle.store.specs.Meanings.{Bounded, Frees, is_live, Keeps, Kinds, live_cells, Meaning, Reads, Takes, Writes};

use heap::Fault;

pub mod shared;

// Cells with links. Any number may be offered as an address or a link; no call fails but by its answer.
// Every call keeps the kinds of the faults and the lent memory, so that its lender knows what it holds when the store ends.
// A method of a trait states its own clauses, so `keeps` stands in each.
pub trait Store {
    // The number of the make: an open number and no enum, since anyone can write a make of store.
    const KIND: u16;

    // the cells, the top address and the capacity
    ghost meaning: { Self → Meaning };

    // the bounds that hold of every value of the type
    ghost bounds: { (s : Self) → Bounded (meaning s) };

    // the kind in each fault, as it was when the store was made
    ghost kinds: { Self → Kinds };

    // the ghost name of the lent memory that the store lies in, and 0 for none
    ghost home: { Self → ℕ };

    // The link of a cell.
    fn read(&mut self, address: u32) -> Result<u16, Fault>
        ensures answer { Reads (meaning self.old) (kinds self.old) address result (meaning self.new) }
        ensures keeps { Keeps kinds home self.old self.new };

    // Gives a cell another link.
    fn write(&mut self, address: u32, link: u32) -> Result<(), Fault>
        ensures answer { Writes (meaning self.old) (kinds self.old) address link result (meaning self.new) }
        ensures keeps { Keeps kinds home self.old self.new };

    // Lets a cell go.
    fn free(&mut self, address: u32) -> Result<(), Fault>
        ensures answer { Frees (meaning self.old) (kinds self.old) address result (meaning self.new) }
        ensures keeps { Keeps kinds home self.old self.new };

    // A new cell, whose link is nil.
    fn take(&mut self) -> Result<u16, Fault>
        ensures answer { Takes (meaning self.old) (kinds self.old) result (meaning self.new) }
        ensures keeps { Keeps kinds home self.old self.new };

    // The highest address that a cell can have.
    fn top(&mut self) -> u16
        ensures value { result ≡ (meaning self.old).top }
        ensures same { meaning self.new ≡ meaning self.old }
        ensures keeps { Keeps kinds home self.old self.new };

    // How many cells can still be taken.
    fn left(&mut self) -> u16
        ensures value { result ≡ (meaning self.old).capacity - live_cells (meaning self.old) }
        ensures same { meaning self.new ≡ meaning self.old }
        ensures keeps { Keeps kinds home self.old self.new };

    // Whether an address is that of a live cell.
    fn live(&mut self, address: u32) -> bool
        ensures value { result ≡ is_live (meaning self.old) address }
        ensures same { meaning self.new ≡ meaning self.old }
        ensures keeps { Keeps kinds home self.old self.new };
}
