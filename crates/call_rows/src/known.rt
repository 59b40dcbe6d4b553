//! Whether terms and values are closed and small, which the calls ask for.
ghost use Rattle.std.specs.Prelude.{◌≤◌, IsTrue};
ghost use Rattle.u_moves.specs.Derivations.{IsKnown};
ghost use Rattle.u_moves.specs.Moving.{AreKnownValues, IsKnownValue};

use u_binder::{closed_inside, closed_value, free_below, value_free_below};
use u_terms::{U, Val, depth, value_depth};

/// More than the text of any term has.
const DEPTH: u64 = 4_096;

/// Whether the term has names below `outs` alone, and no places but those of so many binders around it.
pub fn is_known(u: &U, places: u64, outs: u32) -> bool
    requires { places ≤ 2048 }
    ensures { IsTrue result → IsKnown places outs u.now }
{
    depth(u) < DEPTH && closed_inside(u, places) && free_below(u, u64::from(outs))
}

/// Whether the value has names below `outs` alone, and no places.
pub fn is_known_value(a: &Val, outs: u32) -> bool
    ensures { IsTrue result → IsKnownValue outs a.now }
{
    value_depth(a) < DEPTH && closed_value(a) && value_free_below(a, u64::from(outs))
}

/// Whether there are two of them, and both are so.
pub fn are_known_values(s: &[Val], outs: u32) -> bool
    ensures { IsTrue result → AreKnownValues outs s.now }
{
    match s {
        [a, b] => is_known_value(a, outs) && is_known_value(b, outs),
        _ => false,
    }
}
