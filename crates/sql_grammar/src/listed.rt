//! Entries of FROM, before it is known how they are joined.
use sql_model::{Name, Source};

/// What an entry takes its rows from, with the name that it has and the place of that name.
#[derive(Drop)]
pub struct Listed {
    pub source: Source,
    pub alias: Name,
    pub at: u32,
}
