//! Queries as they are written (SQL, ISO/IEC 9075-2, clauses 6 to 8). A field `at` is the place of a node: the position in
//! the text of its first token, unless its comment says otherwise.

use crate::name::Name;
use plain_data::{Boxed, List, Shared, SharedList};

/// A set function (SQL, ISO/IEC 9075-2, 6.9). Its number in a reading is its place here, from 0.
#[derive(Clone, Copy, Debug, PartialEq, Eq)]
pub enum AggFun {
    Count,
    Sum,
    Avg,
    Min,
    Max,
}

/// An operator between two queries (SQL, ISO/IEC 9075-2, 7.13): `UNION ALL` adds up how often a row occurs, the other three give
/// each row at most once.
#[derive(Clone, Copy, Debug, PartialEq, Eq)]
pub enum SetOp {
    UnionAll,
    Union,
    Except,
    Intersect,
}

/// A value or a condition.
#[cycle(sql)]
#[derive(Drop)]
pub enum Expr {
    /// A column. `at` is the place of its own word, `qual_at` that of its qualifier.
    Col {
        qual: Option<Name>,
        qual_at: u32,
        name: Name,
        at: u32,
    },
    /// A literal, by its number in `Symbols`.
    Lit {
        lit: u32,
        at: u32,
    },
    /// One of the operators `+ - * / ||`, by its number in `Symbols`. Unary minus has one argument.
    Fun {
        sym: u32,
        args: List<Expr>,
        at: u32,
    },
    /// `<`, `<=` or `LIKE`, by its number in `Symbols`.
    Pred {
        sym: u32,
        args: List<Expr>,
        at: u32,
    },
    /// A called name, by its number in `Symbols`: a predicate where a truth is wanted, and else a function.
    Call {
        sym: u32,
        args: List<Expr>,
        at: u32,
    },
    /// An aggregate. Without an argument it is `COUNT(*)`.
    Agg {
        fun: AggFun,
        distinct: bool,
        arg: Option<Boxed<Expr>>,
        at: u32,
    },
    /// A scalar subquery. `at` is the place of its parenthesis.
    Sub {
        query: Boxed<Query>,
        at: u32,
    },
    /// `left = right`. The equalities that a list of IN stands for share their left side, the value before it.
    Eq {
        left: Shared<Expr>,
        right: Boxed<Expr>,
        at: u32,
    },
    /// Copies share the parts, so that BETWEENs within BETWEENs, each an AND that holds its value twice, are not copied again.
    And {
        parts: SharedList<Expr>,
        at: u32,
    },
    Or {
        parts: List<Expr>,
        at: u32,
    },
    Not {
        part: Boxed<Expr>,
        at: u32,
    },
    Exists {
        query: Boxed<Query>,
        at: u32,
    },
    /// `value IN (query)`. `in_at` is the place of its word `IN`. The value is shared, since it is made before the reader sees whether a
    /// list follows.
    In {
        value: Shared<Expr>,
        query: Boxed<Query>,
        at: u32,
        in_at: u32,
    },
}

/// What an entry of FROM takes its rows from: a relation of the schema, or a subquery.
#[cycle(sql)]
#[derive(Drop)]
pub enum Source {
    Named { name: Name, at: u32 },
    Query { query: Boxed<Query> },
}

/// An entry of FROM. `at` is the place of its alias, or of its name where no alias is written.
#[cycle(sql)]
#[derive(Drop)]
pub struct Entry {
    pub source: Source,
    /// The name of its table where no alias is written.
    pub alias: Name,
    pub at: u32,
    /// Whether a JOIN stands before it, and not a comma or FROM.
    pub joined: bool,
    pub on: Option<Expr>,
}

/// An item of SELECT.
#[cycle(sql)]
#[derive(Drop)]
pub enum Item {
    /// `*`
    Star { at: u32 },
    /// `alias.*`
    AliasStar { alias: Name, at: u32 },
    Value { expr: Expr, name: Option<Name> },
}

/// A query specification (SQL, ISO/IEC 9075-2, 7.12).
#[cycle(sql)]
#[derive(Drop)]
pub struct Block {
    pub distinct: bool,
    pub items: List<Item>,
    pub entries: List<Entry>,
    /// The condition of WHERE.
    pub cond: Option<Expr>,
    /// The columns of GROUP BY.
    pub groups: Option<List<Expr>>,
    pub having: Option<Expr>,
}

/// A query expression (SQL, ISO/IEC 9075-2, 7.13).
#[cycle(sql)]
#[derive(Drop)]
pub enum Query {
    Block {
        block: Boxed<Block>,
    },
    /// Two queries under a set operator. `at` is the place of the operator's word.
    Set {
        op: SetOp,
        left: Boxed<Query>,
        right: Boxed<Query>,
        at: u32,
    },
}
