//! Schemas, as the statements of a case build them.

use crate::name::Name;
use crate::tree::Query;
use indexmap::IndexMap;
use plain_data::List;

/// A base table. Base tables are numbered from 0 in order of declaration.
#[derive(Drop)]
pub struct Table {
    pub number: u32,
    pub columns: List<Name>,
    /// Each key as its columns, by their places from 0: the keys in text order, unique indexes last.
    pub keys: List<List<u32>>,
    /// The place among `keys` of the primary key.
    pub primary: Option<u32>,
}

/// What a name of FROM may stand for. An index is the view that shows its columns, and then those of its table's primary key that are not yet shown.
#[derive(Drop)]
pub enum Relation {
    Table { table: Table },
    View { query: Query, at: u32 },
}

/// A foreign key: for each row of table `from` some row of table `to` has in the columns `key` what the row has in `cols`,
/// pair by pair.
#[derive(Drop)]
pub struct Fkey {
    pub from: u32,
    pub cols: List<u32>,
    pub to: u32,
    pub key: List<u32>,
}

/// The relations by name, in order of declaration, and the foreign keys of the whole case in text order.
#[derive(Drop)]
pub struct Schema {
    pub relations: IndexMap<Name, Relation>,
    pub fkeys: List<Fkey>,
}
