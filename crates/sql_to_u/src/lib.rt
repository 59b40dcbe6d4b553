//! Translates resolved queries into terms: a term denotes how often a row occurs in the query's answer.
//!
//! The translation is a definition, `specs/Translation.antt`; `laws` has its theorem. The code first reckons how large the term is, from
//! the trees alone, and builds only terms that are within the limits.
#![tactic(auto)]

mod aggregate;
mod building;
mod factors;
mod fault;
pub mod laws;
mod naming;
mod product;
mod scope;
mod size;
mod sizing;
mod term;

pub use fault::{LimitKind, TermFault};
pub use std::alloc::AllocError as NoMemory;
pub use term::translate;
