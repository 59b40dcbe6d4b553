//! What lines are to come.

/// What the next line of a proof is to be.
#[derive(Clone, Copy, Debug, PartialEq, Eq)]
pub enum Part {
    /// The header.
    Version,
    /// The width of the queries.
    Width,
    /// That of a step, or `end`.
    Steps,
    /// None: the line `end` came.
    Ended,
}
