//! Derivations of parts, put together to derivations of the whole: a term leads to another where its parts lead to the other's parts.
#![tactic(auto)]

mod parts;
mod whole;

pub use parts::{added, multiplied, negated, squashed, summed};
pub use std::alloc::AllocError as NoMemory;
pub use whole::{Derived, closed, copied, inside, joined, made_in_turn, opened, still, unmoved};
