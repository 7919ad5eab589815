// The bench: a store whose cells are the words of a list that the caller lends.
#![tactic(auto)]

mod benches;

pub use benches::Bench;
pub use benches::making::check;
