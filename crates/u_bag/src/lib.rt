//! Blocks and sums of blocks that are equal up to the order of their entries and to what their equalities entail: a pairing of the entries
//! is sought, and made into a derivation.
#![tactic(auto)]

mod blocks;
mod differences;
mod gaining;
mod meeting;
mod order;
mod pairs;
mod regrouping;
mod sums;

pub use blocks::{Matched, match_blocks};
pub use std::alloc::AllocError as NoMemory;
pub use sums::match_sums;
