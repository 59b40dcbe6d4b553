//! The limits of a proof, each of which a checker tells by its name.

/// The most nodes of an argument.
pub const MOST_NODES: u32 = 200_000;

/// The greatest depth of an argument.
pub const MOST_DEPTH: u32 = 2_048;

/// What is limited in a proof.
#[derive(Clone, Copy, Debug, PartialEq, Eq)]
pub enum LimitKind {
    /// Nodes of a term.
    Nodes,
    /// Depth of a term.
    Depth,
    /// Steps of a proof, inner ones too.
    Steps,
    /// Inner proofs that are open at once.
    Nesting,
}
