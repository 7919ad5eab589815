// The pieces of a routine: what they mean, and the mathematics by which they are decided.
#![tactic(auto)]

mod shapes;
mod verdicts;

pub use shapes::{Edge, Node};
pub use verdicts::{Flaw, Verdict};
