//! Texts that are read by name, and a place that bytes are written to.
//!
//! The clauses of `Store` and `Sink` say what reading and writing do to the bytes, where an
//! implementation tells them, and that a call fails only where a count of faults rose. `read_all`
//! and `write_all` work over any of them. `FileStore` and `StdSink` are the edge to files and to
//! standard output; the others lie in memory.
#![tactic(auto)]

mod fault_plan;
mod file_store;
pub mod laws;
mod memory_sink;
mod memory_store;
mod reading;
mod sink;
mod std_sink;
mod store;
mod sure_sink;
mod sure_store;
mod texts;
mod writing;

pub use file_store::FileStore;
pub use memory_sink::MemSink;
pub use memory_store::MemStore;
pub use reading::{ReadAllFault, read_all};
pub use sink::{Sink, SinkFault};
pub use std::alloc::AllocError as NoMemory;
pub use std_sink::StdSink;
pub use store::{Store, StoreFault};
pub use sure_sink::SureSink;
pub use sure_store::SureStore;
pub use writing::write_all;
