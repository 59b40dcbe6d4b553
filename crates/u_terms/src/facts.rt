//! What proofs may use of a schema, by numbers alone.

use plain_data::List;

/// A foreign key: for each row of table `from` some row of table `to` has in the columns `key` what the row has in `cols`,
/// pair by pair.
#[derive(Drop)]
pub struct Fkey {
    pub from: u32,
    pub cols: List<u32>,
    pub to: u32,
    pub key: List<u32>,
}

/// The widths and keys of the base tables, by the tables' numbers, and the foreign keys between them. A key is a list of
/// columns, which are numbered from 0.
#[derive(Drop)]
pub struct Facts {
    pub widths: List<u32>,
    pub keys: List<List<List<u32>>>,
    pub fkeys: List<Fkey>,
}
