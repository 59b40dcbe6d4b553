//! U-expressions: terms that denote how often a row occurs in the answer of a query, and the values in them.
#![tactic(auto)]

mod copy;
mod equality;
pub mod facts;
pub mod laws;
mod size;
pub mod term;

pub use equality::{same, same_value};
pub use facts::{Facts, Fkey};
pub use plain_data::{Boxed, List};
pub use size::{depth, nodes, value_depth, value_nodes};
pub use std::alloc::AllocError as NoMemory;
pub use term::{U, Val};
