//! How much room the last term of a derivation takes.
ghost use Rattle.std.specs.Prelude.{◌≡◌, ◌↔◌, ◌≤◌, ◌<◌, IsTrue, MatchOption};
ghost use Rattle.u_terms.specs.Size as size;
ghost use Rattle.u_normal.specs.Rooms.{IsExcess, beside};

use u_congruence::Derived;
use u_terms::nodes;

/// How many nodes the last term has, where they are more than there is room for. They are counted only where a term on the way may have
/// more.
pub fn excess(d: &Derived<'_>, room: u64) -> Option<u64>
    ensures { MatchOption result (size.nodes d.now.to ≤ room) (IsExcess room d.now) }
{
    let last = d.get().to();
    if d.get().nodes() <= room {
        return None;
    }
    let count = nodes(last);
    if count > room { Some(count) } else { None }
}

/// Whether the last term has more nodes than there is room for.
pub fn is_over(d: &Derived<'_>, room: u64) -> bool
    ensures { IsTrue result ↔ (room < size.nodes d.now.to) }
{
    excess(d, room).is_some()
}

/// What is left of the room beside the last term.
pub fn room_beside(room: u64, d: &Derived<'_>) -> u64
    ensures { result ≡ beside room d.now.to }
{
    room.saturating_sub(nodes(d.get().to())).saturating_sub(1)
}
