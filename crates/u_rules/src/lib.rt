//! The rules by which terms are rewritten: for each the arguments that it takes and its two sides, which mean the same
//! wherever the facts are met.
#![tactic(auto)]

mod build;
mod building;
mod changed_same;
mod closed_same;
mod closedness;
mod comparing;
mod faults;
mod forms;
mod found;
mod holes;
mod instances;
pub mod laws;
mod leaf_lists;
mod measure;
mod measuring;
mod rule;
mod side_sizes;
mod table;
mod table_same;
mod table_sizes;
mod tables;

pub use closed_same::same_closed;
pub use instances::{instance, side, stands};
pub use leaf_lists::{code_of, leaves, same_leaves};
pub use measuring::sizes;
pub use rule::{Arg, InstanceFault, Rule, Why};
pub use side_sizes::Sizes;
pub use std::alloc::AllocError as NoMemory;
