// Examples: sequences of calls on each make of store, with the answer of every call, and what a lender finds afterwards.
#![tactic(auto)]

mod lending;
#[cfg(test)]
mod tests;

pub use lending::after_take;
