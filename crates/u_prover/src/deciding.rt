//! What a search comes to, by what was found.
ghost use Rattle.std.specs.Prelude.{MatchOption};
ghost use Rattle.u_prover.specs.Proving.{IsKept, IsPassing, IsWithinLimits};

use crate::limits::keeps_limits;
use u_moves::Deriv;

/// What a search comes to.
#[derive(Drop)]
pub enum Outcome<'f> {
    /// From the left term to the right one. Its proof keeps each limit.
    Found {
        deriv: Deriv<'f>,
    },
    /// No derivation was found, or none whose proof keeps the limits.
    Unknown {
        /// Whether the budget ended a search.
        spent: bool,
    },
}

/// The derivation, where its proof keeps the limits.
pub fn kept(deriv: Deriv<'_>) -> Option<Deriv<'_>>
    ensures { MatchOption result (IsPassing deriv.entry) (IsKept deriv.entry) }
{
    if keeps_limits(&deriv) {
        Some(deriv)
    } else {
        None
    }
}

/// The derivation is found where its proof keeps the limits, and else nothing is known.
pub fn within_limits(deriv: Deriv<'_>) -> Outcome<'_>
    ensures { IsWithinLimits deriv.entry result }
{
    match kept(deriv) {
        Some(deriv) => Outcome::Found { deriv },
        None => Outcome::Unknown { spent: false },
    }
}
