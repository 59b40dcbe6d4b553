//! The search for a pairing of the entries of two shapes that makes them alike.
#![tactic(auto)]

mod carried;
pub mod laws;
mod points;
mod search;
mod sides;
mod tables;

pub use search::{Match, match_shapes};
pub use std::alloc::AllocError as NoMemory;
