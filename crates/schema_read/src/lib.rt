//! Builds the schema that the statements of a case declare.
#![tactic(auto)]

mod builder;
mod fault;
mod foreign;
mod indexes;
mod keys;
pub mod laws;
mod names;
mod read;
mod reading;
mod relations;
mod sets;
pub mod statement_laws;

pub use fault::{SchemaCode, SchemaFault};
pub use read::read_schema;
pub use reading::{read_inner_statements, read_statements};
