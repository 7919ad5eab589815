// The ledger: a store whose cells are the records of a list that the caller lends.
#![tactic(auto)]

mod ledgers;
mod records;

pub use ledgers::Ledger;
pub use ledgers::making::check;
pub use records::Record;
