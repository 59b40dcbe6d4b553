//! Terms made simpler to compare: sums that count one value are gone, and parts stand in an order of their own.
#![tactic(auto)]

mod bodies;
mod order;
mod passes;
mod points;
mod sorting;
mod steps;
mod sums;

pub use passes::{in_order, without_points};
pub use std::alloc::AllocError as NoMemory;
pub use steps::{products_rearranged, sums_rearranged};
pub use sums::{inside_sums, sums_of};
