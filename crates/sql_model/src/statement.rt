//! Statements as they are written (SQL, ISO/IEC 9075-2, clause 11; `CREATE INDEX` is not of that standard).

use crate::name::Name;
use crate::tree::Query;
use plain_data::List;

/// A name and its place in the text.
#[derive(Drop)]
pub struct NameAt {
    pub name: Name,
    pub at: u32,
}

/// A key or a foreign key of a `CREATE TABLE`.
#[derive(Drop)]
pub enum TableRule {
    /// `PRIMARY KEY` or `UNIQUE`. `at` is the place of that word.
    Key {
        primary: bool,
        columns: List<NameAt>,
        at: u32,
    },
    /// `REFERENCES table`, with the referenced columns where they are written.
    Foreign {
        columns: List<NameAt>,
        table: NameAt,
        target: Option<List<NameAt>>,
    },
}

/// A statement `CREATE ..` of a case, with the places of its names.
#[derive(Drop)]
pub enum Statement {
    Table {
        name: NameAt,
        columns: List<NameAt>,
        rules: List<TableRule>,
    },
    View {
        name: NameAt,
        query: Query,
    },
    Index {
        name: NameAt,
        unique: bool,
        table: NameAt,
        columns: List<NameAt>,
    },
}
