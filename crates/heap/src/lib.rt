// What the other parts speak of: atoms over heaps, faults, and a pile over lent memory.
#![tactic(auto)]

mod atoms;
mod faults;
mod piles;
mod segments;

pub use atoms::{Atom, Name};
pub use faults::{Fault, Problem};
pub use piles::{Full, Pile};
pub use segments::at_end;
