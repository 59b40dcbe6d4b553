//! Texts as rows write them, and how many rows came out as expected (docs/ROWS.md).
#![tactic(auto)]

mod fault;
mod outcome;
mod tally;
mod template;

pub use fault::TextFault;
pub use outcome::Outcome;
pub use tally::Tally;
pub use template::{MOST_BYTES, Template};
