//! What the equalities among the factors of a product entail, and chains of links that lead from a value to an equal one.
//!
//! The factors of a term are the leaves of its tree of products, but for 1, numbered from 0 from left to right. A term that is no product is
//! its own one factor.
#![tactic(auto)]

mod agenda;
mod calls;
mod chains;
mod classes;
mod closure;
mod forest;
mod gather;
mod key;
pub mod laws;
mod link;
mod numbered;
mod numbers;
mod route;
mod table;

pub use classes::{Classes, factors};
pub use link::Link;
pub use route::{Route, Routes};
pub use std::alloc::AllocError as NoMemory;
