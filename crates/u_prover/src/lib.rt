//! Derivations from the term of one query to that of another.
#![tactic(auto)]

mod deciding;
pub mod laws;
mod limits;
mod proving;
mod rearranging;
mod simplifying;

pub use deciding::Outcome;
pub use proving::prove;
pub use std::alloc::AllocError as NoMemory;
