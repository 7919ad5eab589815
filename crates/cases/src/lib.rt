// Symbolic cases: one case of a piece in memory, the cases behind it, and the test of its closing list.
#![tactic(auto)]

mod cases;
mod covering;
mod openings;
mod piling;
mod stepping;
mod steps;

pub use cases::{Case, Stage};
pub use openings::Opening;
pub use piling::put;
pub use steps::Step;
