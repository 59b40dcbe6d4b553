//! The text of proofs.
#![tactic(auto)]

mod argument;
mod cursor;
mod heading;
mod kept;
mod kinds;
pub mod laws;
mod lengths;
mod limits;
mod line;
mod lines;
mod names;
mod number;
mod path;
mod pending;
mod proof_writer;
mod rule_name;
mod sign;
mod step;
mod step_writer;
mod term;
mod term_writer;

pub use heading::{read_outs, read_version};
pub use lengths::proof_bytes;
pub use limits::LimitKind;
pub use line::{LineFault, LineKind, LineStep, read_step, read_step_over};
pub use lines::{Line, Lines};
pub use proof_writer::write_proof;
