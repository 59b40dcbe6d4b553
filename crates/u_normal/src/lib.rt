//! Derivations to the normal form of a term.
#![tactic(auto)]

mod heads;
pub mod laws;
mod limits;
mod merging;
mod rooms;
mod shaped;
mod steps;
mod sums;
mod taking;
mod values;
mod vanishing;
mod whole;

pub use limits::{NormalFault, normal};
pub use std::alloc::AllocError as NoMemory;
pub use values::{extended, then_in_aggregate};
