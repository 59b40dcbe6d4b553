//! The shape of a block.

use plain_data::List;

/// A column of an entry, or a literal. Entries and columns are counted from 0.
#[derive(Clone, Copy, Debug, Drop)]
pub enum Point {
    Column { entry: u32, column: u32 },
    Literal(u32),
}

/// What a mark says of its points.
#[derive(Clone, Copy, Debug, Drop)]
pub enum Kind {
    /// The predicate of this number holds of them.
    Holds(u32),
    /// It does not.
    Fails(u32),
    /// The two points differ.
    Differ,
}

/// A predicate, its negation or a negated equality.
#[derive(Drop)]
pub struct Mark {
    pub kind: Kind,
    pub points: List<Point>,
}

/// An entry: a table and how many columns it has.
#[derive(Clone, Copy, Debug, Drop)]
pub struct Entry {
    pub table: u32,
    pub columns: u32,
}

/// What a block says: which rows it combines, which of their points are equal, what else holds of them, and which it gives out.
#[derive(Drop)]
pub struct Shape {
    pub entries: List<Entry>,
    pub equalities: List<(Point, Point)>,
    pub marks: List<Mark>,
    pub outputs: List<Point>,
}
