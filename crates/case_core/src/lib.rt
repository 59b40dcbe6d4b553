//! A whole case: the text of statements and two queries to a schema and two resolved queries of one width over it.
#![tactic(auto)]

mod case;
mod facts;
mod fault;
pub mod laws;
mod read;
mod text;
mod translated;

pub use case::Case;
pub use facts::facts_of;
pub use fault::CaseFault;
pub use read::read_case;
pub use sql_to_u::{LimitKind, TermFault};
pub use translated::terms;
