// The lines that programs print: an answer in two columns, and what a sheet holds.
#![tactic(auto)]

mod lines;
mod shown;
mod summaries;

pub use lines::{answer, refusal};
pub use shown::Shown;
pub use summaries::{line_for, summary};
