//! SQL queries, schemas and statements as they are written, and what they mean.
//!
//! The trees are plain data. What they mean is in `specs/`; read there in the order of `specs/Lib.antt`.
#![tactic(auto)]

mod copying;
mod equality;
pub mod laws;
pub mod name;
pub mod schema;
pub mod statement;
pub mod symbols;
pub mod tree;

pub use name::{Name, NameBuilder};
pub use plain_data::{Boxed, List, Shared, SharedList};
pub use schema::{Fkey, Relation, Schema, Table};
pub use statement::{NameAt, Statement, TableRule};
pub use std::alloc::AllocError as NoMemory;
pub use symbols::{Lit, LitKind, Symbols};
pub use tree::{AggFun, Block, Entry, Expr, Item, Query, SetOp, Source};
