//! Queries after names have been resolved. Blocks are counted outwards from 0, the innermost first; entries of FROM, columns
//! of an entry, columns of a group, base tables and views are counted from 0.

use crate::items::Items;
use plain_data::{Boxed, List, Shared};
use sql_model::{AggFun, SetOp};

/// A value.
#[cycle(resolved)]
#[derive(Drop)]
pub enum RVal {
    /// A column of an entry of the block `up` blocks outwards.
    Col {
        up: u32,
        entry: u32,
        col: u32,
    },
    /// A column of the group, by its place in the `Keys` of the innermost block.
    Key {
        place: u32,
    },
    /// A literal, by its number in `Symbols`.
    Lit {
        lit: u32,
    },
    /// An operator or a called name, by its number in `Symbols`.
    Fun {
        sym: u32,
        args: List<RVal>,
    },
    /// An aggregate over the members of the innermost block's group; its argument sees that block as a member has it. Without
    /// an argument it is `COUNT(*)`.
    Agg {
        fun: AggFun,
        distinct: bool,
        arg: Option<Boxed<RVal>>,
    },
    /// A scalar subquery. Copies of the value share it.
    Sub {
        block: Shared<RBlock>,
    },
}

/// A condition.
#[cycle(resolved)]
#[derive(Drop)]
pub enum RCond {
    /// `left = right`. The equalities that a list of IN stands for share their left side.
    Eq { left: Shared<RVal>, right: RVal },
    /// A predicate or a called name, by its number in `Symbols`.
    Pred { sym: u32, args: List<RVal> },
    And { parts: List<RCond> },
    Or { parts: List<RCond> },
    Not { part: Boxed<RCond> },
    Exists { query: Boxed<RQuery> },
    /// `value IN (query)`
    In { value: RVal, query: Boxed<RQuery> },
}

/// What an entry takes its rows from.
#[cycle(resolved)]
#[derive(Drop)]
pub enum RSource {
    /// A base table, by its number.
    Table { number: u32 },
    /// A view, by its place among the views in order of declaration; indexes are views.
    View { place: u32 },
    /// A derived table. It sees the blocks around its entry's block, and not that block.
    Query { query: Boxed<RQuery> },
}

/// An entry of FROM and its number of columns.
#[cycle(resolved)]
#[derive(Drop)]
pub struct REntry {
    pub source: RSource,
    pub width: u32,
}

/// How the combinations of a block fall into groups.
#[derive(Drop)]
pub enum Grouping {
    /// There are no groups: each combination gives a row.
    Plain,
    /// One group of all combinations, also where there are none.
    One,
    /// A group for each key that occurs. Each column of the key is an entry of the block and a column of that entry, in the order
    /// of GROUP BY.
    Keys { columns: List<(u32, u32)> },
}

/// A query specification.
#[cycle(resolved)]
#[derive(Drop)]
pub struct RBlock {
    pub distinct: bool,
    pub entries: List<REntry>,
    /// The conjuncts of the ON conditions in order of entries, and then those of WHERE.
    pub conds: List<RCond>,
    pub grouping: Grouping,
    pub having: Option<RCond>,
    /// One value for each column of the answer.
    pub items: Items<RVal>,
}

/// A query expression.
#[cycle(resolved)]
#[derive(Drop)]
pub enum RQuery {
    Block {
        block: Shared<RBlock>,
    },
    Set {
        op: SetOp,
        left: Boxed<RQuery>,
        right: Boxed<RQuery>,
    },
}
