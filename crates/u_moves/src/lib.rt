//! Derivations: steps that always replay from a first term to a last one, how they are put together, and one step at the root by each rule.
#![tactic(auto)]

mod binders;
mod counted;
mod deriv;
pub mod laws;
mod lifting;
mod moves;
mod runs;
mod turning;

pub use deriv::Deriv;
pub use moves::Moves;
pub use std::alloc::AllocError as NoMemory;
