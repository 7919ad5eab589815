// The sheet as a value, the table of line kinds, and the reader.
#![tactic(auto)]

mod building;
mod drafting;
mod drafts;
mod flow;
mod kinds;
mod making;
mod reading;
mod rows;
mod sealed;
mod sheets;

pub use rows::{AtomList, Row};
pub use sealed::Sheet;
pub use sheets::Head;
