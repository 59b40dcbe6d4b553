//! Resolved trees: queries with each column replaced by its place, each source by its number and stars written out.
//!
//! The trees are plain data. What they mean, and which tree a query has, is in `specs/`; read there in the order of
//! `specs/Lib.antt`.
#![tactic(auto)]

mod catalog;
mod checks;
mod column;
mod copying;
mod directed;
pub mod fault;
mod grouping;
mod guide;
mod heading;
pub mod items;
pub mod laws;
mod level;
mod names;
mod output;
mod relation_set;
mod resolution;
mod resolved;
mod rope;
mod run;
mod shape;
mod sources;
mod star;
pub mod tree;
mod views;

pub use fault::{ScopeCode, ScopeFault};
pub use items::Items;
pub use plain_data::{Boxed, List, Shared};
pub use resolved::{Resolved, Views};
pub use shape::query_width;
pub use sql_model::{AggFun, SetOp};
pub use std::alloc::AllocError as NoMemory;
pub use tree::{Grouping, RBlock, RCond, REntry, RQuery, RSource, RVal};
pub use views::{resolve, resolve_views};
