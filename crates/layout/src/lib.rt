// The layout of a sheet's text: numbers in columns of four bytes, seven columns and byte 10 a line.
#![tactic(auto)]

mod columns;
mod lines;
mod scanned;
mod texts;

pub use columns::column;
pub use lines::{Numbers, Six, line};
pub use scanned::Scanned;
pub use texts::scan;
